// Copies of calls.
ghost use Rattle.std.specs.Prelude.{◌≡◌, IfOk, option_map};
ghost use Rattle.tracker_calls.specs.declared.call.Call.TheVariants as calls;

use crate::call::{Call, Part};
use crate::given::{Given, GivenField, GivenFields};
use crate::reply_copy::{names_if_any, text_if_any};
use crate::told_text::ToldText;
use field_values::{Memory, Names, Text};
use std::alloc::Global;

impl Call {
    /// Another call of the same.
    pub fn copy(&self, alloc: Global) -> Result<Self, Memory>
        ensures { IfOk result (λ c. c ≡ self.now) }
    {
        match self {
            Call::Create {
                project,
                issue_type,
                summary,
                set,
                external,
            } => copy_create(alloc, project, issue_type, summary, set, external.as_ref()),
            Call::Edit { issue, set } => copy_edit(alloc, issue, set),
            Call::Tick { to } => Ok(Call::Tick { to: *to }),
            Call::Transition {
                issue,
                transition,
                set,
            } => copy_transition(alloc, issue, transition, set),
            Call::MoveBefore { issue, other } => copy_move_before(alloc, issue, other),
            Call::MoveAfter { issue, other } => copy_move_after(alloc, issue, other),
            Call::RebalanceStart => Ok(Call::RebalanceStart),
            Call::RebalanceStep { count } => Ok(Call::RebalanceStep { count: *count }),
            Call::SaveFilter { name, jql } => copy_save_filter(alloc, name, jql),
            Call::DropFilter { filter } => Ok(Call::DropFilter { filter: *filter }),
            Call::MakeBoard { name, filter } => {
                let name = name.copy(alloc)?;
                Ok(Call::MakeBoard {
                    name,
                    filter: *filter,
                })
            }
            Call::DropBoard { board } => Ok(Call::DropBoard { board: *board }),
            Call::MakeSprint { name } => {
                let name = name.copy(alloc)?;
                Ok(Call::MakeSprint { name })
            }
            Call::StartSprint { sprint } => Ok(Call::StartSprint { sprint: *sprint }),
            Call::CloseSprint { sprint } => Ok(Call::CloseSprint { sprint: *sprint }),
            Call::SetGroup { group, members } => copy_set_group(alloc, group, members),
            Call::Show { issue } => {
                let issue = issue.copy(alloc)?;
                Ok(Call::Show { issue })
            }
            Call::History { issue, part } => {
                let issue = issue.copy(alloc)?;
                Ok(Call::History { issue, part: *part })
            }
            Call::Search { jql, part } => {
                let jql = jql.copy(alloc)?;
                Ok(Call::Search { jql, part: *part })
            }
            Call::Ranks { part } => Ok(Call::Ranks { part: *part }),
            Call::Balance => Ok(Call::Balance),
            Call::Filter { filter, part } => Ok(Call::Filter {
                filter: *filter,
                part: *part,
            }),
            Call::Board { board, part } => Ok(Call::Board {
                board: *board,
                part: *part,
            }),
            Call::Burndown { sprint, part } => Ok(Call::Burndown {
                sprint: *sprint,
                part: *part,
            }),
            Call::List { jql, fields, part } => copy_list(alloc, jql, fields.as_ref(), *part),
            Call::Filters { part } => Ok(Call::Filters { part: *part }),
            Call::Boards { part } => Ok(Call::Boards { part: *part }),
            Call::Sprints { part } => Ok(Call::Sprints { part: *part }),
            Call::Describe => Ok(Call::Describe),
        }
    }
}

fn copy_create(
    alloc: Global,
    project: &ToldText,
    issue_type: &ToldText,
    summary: &Text,
    set: &GivenFields,
    external: Option<&Text>,
) -> Result<Call, Memory>
    ensures { IfOk result (λ c. c ≡ calls.Create project.now issue_type.now summary.now set.now
        (option_map (λ t. t.now) external.entry)) }
{
    let project = project.copy(alloc)?;
    let issue_type = issue_type.copy(alloc)?;
    let summary = summary.copy(alloc)?;
    let set = set.copy(alloc)?;
    let external = text_if_any(alloc, external)?;
    Ok(Call::Create {
        project,
        issue_type,
        summary,
        set,
        external,
    })
}

fn copy_edit(alloc: Global, issue: &ToldText, set: &GivenFields) -> Result<Call, Memory>
    ensures { IfOk result (λ c. c ≡ calls.Edit issue.now set.now) }
{
    let issue = issue.copy(alloc)?;
    let set = set.copy(alloc)?;
    Ok(Call::Edit { issue, set })
}

fn copy_transition(
    alloc: Global,
    issue: &ToldText,
    transition: &ToldText,
    set: &GivenFields,
) -> Result<Call, Memory>
    ensures { IfOk result (λ c. c ≡ calls.Transition issue.now transition.now set.now) }
{
    let issue = issue.copy(alloc)?;
    let transition = transition.copy(alloc)?;
    let set = set.copy(alloc)?;
    Ok(Call::Transition {
        issue,
        transition,
        set,
    })
}

fn copy_move_before(alloc: Global, issue: &ToldText, other: &ToldText) -> Result<Call, Memory>
    ensures { IfOk result (λ c. c ≡ calls.MoveBefore issue.now other.now) }
{
    let issue = issue.copy(alloc)?;
    let other = other.copy(alloc)?;
    Ok(Call::MoveBefore { issue, other })
}

fn copy_move_after(alloc: Global, issue: &ToldText, other: &ToldText) -> Result<Call, Memory>
    ensures { IfOk result (λ c. c ≡ calls.MoveAfter issue.now other.now) }
{
    let issue = issue.copy(alloc)?;
    let other = other.copy(alloc)?;
    Ok(Call::MoveAfter { issue, other })
}

fn copy_save_filter(alloc: Global, name: &Text, jql: &Text) -> Result<Call, Memory>
    ensures { IfOk result (λ c. c ≡ calls.SaveFilter name.now jql.now) }
{
    let name = name.copy(alloc)?;
    let jql = jql.copy(alloc)?;
    Ok(Call::SaveFilter { name, jql })
}

fn copy_set_group(alloc: Global, group: &Text, members: &Names) -> Result<Call, Memory>
    ensures { IfOk result (λ c. c ≡ calls.SetGroup group.now members.now) }
{
    let group = group.copy(alloc)?;
    let members = members.copy(alloc)?;
    Ok(Call::SetGroup { group, members })
}

fn copy_list(alloc: Global, jql: &Text, fields: Option<&Names>, part: Part) -> Result<Call, Memory>
    ensures { IfOk result
        (λ c. c ≡ calls.List jql.now (option_map (λ names. names.now) fields.entry) part) }
{
    let jql = jql.copy(alloc)?;
    let fields = names_if_any(alloc, fields)?;
    Ok(Call::List { jql, fields, part })
}

impl Given {
    /// Another of the same.
    pub fn copy(&self, alloc: Global) -> Result<Self, Memory>
        ensures { IfOk result (λ given. given ≡ self.now) }
    {
        match self {
            Given::Null => Ok(Given::Null),
            Given::Text(text) => {
                let text = text.copy(alloc)?;
                Ok(Given::Text(text))
            }
            Given::List(names) => {
                let names = names.copy(alloc)?;
                Ok(Given::List(names))
            }
            Given::Number(number) => Ok(Given::Number(*number)),
            Given::Other => Ok(Given::Other),
        }
    }
}

impl GivenField {
    /// Another of the same name, for which the same is given.
    pub fn copy(&self, alloc: Global) -> Result<Self, Memory>
        ensures { IfOk result (λ field. field ≡ self.now) }
    {
        let name = self.name.copy(alloc)?;
        let given = self.given.copy(alloc)?;
        Ok(GivenField { name, given })
    }
}

impl GivenFields {
    /// The same fields in the same order.
    pub fn copy(&self, alloc: Global) -> Result<Self, Memory>
        ensures { IfOk result (λ fields. fields ≡ self.now) }
    {
        let mut fields = GivenFields::new(alloc);
        for field in self.as_slice() {
            fields.push(field.copy(alloc)?)?;
        }
        Ok(fields)
    }
}
