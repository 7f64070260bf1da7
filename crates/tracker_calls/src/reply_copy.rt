// Copies of replies.
ghost use Rattle.std.specs.Prelude.{◌≡◌, IfOk, option_map};
ghost use Rattle.tracker_calls.specs.declared.reply.Answer.TheVariants as answers;

use crate::copied::{Copied, copy_all};
use crate::listed::{ListedIssues, ToldBoards, ToldFilters, ToldSprints};
use crate::reply::{
    Answer, BurnedRow, Column, Columns, RankedKey, RankedKeys, Refusal, Reply, Shown, ShownField,
    ShownFields, ToldEntries, ToldEntry,
};
use crate::told_text::ToldText;
use field_values::{Memory, Moment, Names, Text};
use std::alloc::Global;

impl Reply {
    /// Another reply of the same.
    pub fn copy(&self, alloc: Global) -> Result<Self, Memory>
        ensures { IfOk result (λ r. r ≡ self.now) }
    {
        match self {
            Reply::Ok(answer) => {
                let answer = answer.copy(alloc)?;
                Ok(Reply::Ok(answer))
            }
            Reply::Refused(refusal) => {
                let refusal = refusal.copy(alloc)?;
                Ok(Reply::Refused(refusal))
            }
        }
    }
}

impl Answer {
    /// Another answer of the same.
    pub fn copy(&self, alloc: Global) -> Result<Self, Memory>
        ensures { IfOk result (λ a. a ≡ self.now) }
    {
        match self {
            Answer::Create {
                already,
                change,
                issue,
            } => copy_create(alloc, *already, *change, issue),
            Answer::Edit { change, issue } => copy_edit(alloc, *change, issue),
            Answer::Transition { change, issue } => copy_transition(alloc, *change, issue),
            Answer::Tick { moment } => Ok(Answer::Tick { moment: *moment }),
            Answer::Show {
                created,
                fields,
                issue,
                updated,
            } => copy_show(alloc, *created, fields, issue, *updated),
            Answer::History { entries, total } => copy_history(alloc, entries, *total),
            Answer::Search { issues, total } => copy_search(alloc, issues, *total),
            Answer::Move { issue, rank } => copy_moved(alloc, issue, rank),
            Answer::Ranks { ranks, total } => copy_ranked(alloc, ranks, *total),
            Answer::RebalanceStart { from, to } => Ok(Answer::RebalanceStart {
                from: *from,
                to: *to,
            }),
            Answer::RebalanceStep { left, moved } => Ok(Answer::RebalanceStep {
                left: *left,
                moved: *moved,
            }),
            Answer::Balance {
                state,
                longest,
                offer,
            } => Ok(Answer::Balance {
                state: *state,
                longest: *longest,
                offer: *offer,
            }),
            Answer::SaveFilter { filter, members } => Ok(Answer::SaveFilter {
                filter: *filter,
                members: *members,
            }),
            Answer::DropFilter { filter } => Ok(Answer::DropFilter { filter: *filter }),
            Answer::Filter { issues, total } => copy_filtered(alloc, issues, *total),
            Answer::MakeBoard { board } => Ok(Answer::MakeBoard { board: *board }),
            Answer::DropBoard { board } => Ok(Answer::DropBoard { board: *board }),
            Answer::Board { columns, total } => copy_boarded(alloc, columns, *total),
            Answer::MakeSprint { sprint } => Ok(Answer::MakeSprint { sprint: *sprint }),
            Answer::SetGroup { group, members } => copy_set_group(alloc, group, *members),
            Answer::SprintPhase { sprint, state } => Ok(Answer::SprintPhase {
                sprint: *sprint,
                state: *state,
            }),
            Answer::Burndown {
                left,
                rows,
                start,
                state,
                total,
            } => {
                let rows = copy_all(alloc, rows)?;
                Ok(Answer::Burndown {
                    left: *left,
                    rows,
                    start: *start,
                    state: *state,
                    total: *total,
                })
            }
            Answer::List { issues, total } => copy_listed(alloc, issues, *total),
            Answer::Filters { filters, total } => copy_filters(alloc, filters, *total),
            Answer::Boards { boards, total } => copy_boards(alloc, boards, *total),
            Answer::Sprints { sprints, total } => copy_sprints(alloc, sprints, *total),
            Answer::Describe { told } => {
                let told = told.copy(alloc)?;
                Ok(Answer::Describe { told })
            }
        }
    }
}

fn copy_create(
    alloc: Global,
    already: bool,
    change: u64,
    issue: &ToldText,
) -> Result<Answer, Memory>
    ensures { IfOk result (λ a. a ≡ answers.Create already change issue.now) }
{
    let issue = issue.copy(alloc)?;
    Ok(Answer::Create {
        already,
        change,
        issue,
    })
}

fn copy_edit(alloc: Global, change: Option<u64>, issue: &ToldText) -> Result<Answer, Memory>
    ensures { IfOk result (λ a. a ≡ answers.Edit change issue.now) }
{
    let issue = issue.copy(alloc)?;
    Ok(Answer::Edit { change, issue })
}

fn copy_transition(alloc: Global, change: Option<u64>, issue: &ToldText) -> Result<Answer, Memory>
    ensures { IfOk result (λ a. a ≡ answers.Transition change issue.now) }
{
    let issue = issue.copy(alloc)?;
    Ok(Answer::Transition { change, issue })
}

fn copy_show(
    alloc: Global,
    created: Moment,
    fields: &ShownFields,
    issue: &ToldText,
    updated: Moment,
) -> Result<Answer, Memory>
    ensures { IfOk result (λ a. a ≡ answers.Show created fields.now issue.now updated) }
{
    let fields = fields.copy(alloc)?;
    let issue = issue.copy(alloc)?;
    Ok(Answer::Show {
        created,
        fields,
        issue,
        updated,
    })
}

fn copy_history(alloc: Global, entries: &ToldEntries, total: u64) -> Result<Answer, Memory>
    ensures { IfOk result (λ a. a ≡ answers.History entries.now total) }
{
    let entries = copy_all(alloc, entries)?;
    Ok(Answer::History { entries, total })
}

fn copy_search(alloc: Global, issues: &Names, total: u64) -> Result<Answer, Memory>
    ensures { IfOk result (λ a. a ≡ answers.Search issues.now total) }
{
    let issues = issues.copy(alloc)?;
    Ok(Answer::Search { issues, total })
}

fn copy_moved(alloc: Global, issue: &ToldText, rank: &ToldText) -> Result<Answer, Memory>
    ensures { IfOk result (λ a. a ≡ answers.Move issue.now rank.now) }
{
    let issue = issue.copy(alloc)?;
    let rank = rank.copy(alloc)?;
    Ok(Answer::Move { issue, rank })
}

fn copy_ranked(alloc: Global, ranks: &RankedKeys, total: u64) -> Result<Answer, Memory>
    ensures { IfOk result (λ a. a ≡ answers.Ranks ranks.now total) }
{
    let ranks = copy_all(alloc, ranks)?;
    Ok(Answer::Ranks { ranks, total })
}

fn copy_filtered(alloc: Global, issues: &Names, total: u64) -> Result<Answer, Memory>
    ensures { IfOk result (λ a. a ≡ answers.Filter issues.now total) }
{
    let issues = issues.copy(alloc)?;
    Ok(Answer::Filter { issues, total })
}

fn copy_boarded(alloc: Global, list: &Columns, total: u64) -> Result<Answer, Memory>
    ensures { IfOk result (λ a. a ≡ answers.Board list.now total) }
{
    let columns = copy_all(alloc, list)?;
    Ok(Answer::Board { columns, total })
}

fn copy_set_group(alloc: Global, group: &Text, members: u64) -> Result<Answer, Memory>
    ensures { IfOk result (λ a. a ≡ answers.SetGroup group.now members) }
{
    let group = group.copy(alloc)?;
    Ok(Answer::SetGroup { group, members })
}

fn copy_listed(alloc: Global, issues: &ListedIssues, total: u64) -> Result<Answer, Memory>
    ensures { IfOk result (λ a. a ≡ answers.List issues.now total) }
{
    let issues = copy_all(alloc, issues)?;
    Ok(Answer::List { issues, total })
}

fn copy_filters(alloc: Global, filters: &ToldFilters, total: u64) -> Result<Answer, Memory>
    ensures { IfOk result (λ a. a ≡ answers.Filters filters.now total) }
{
    let filters = copy_all(alloc, filters)?;
    Ok(Answer::Filters { filters, total })
}

fn copy_boards(alloc: Global, boards: &ToldBoards, total: u64) -> Result<Answer, Memory>
    ensures { IfOk result (λ a. a ≡ answers.Boards boards.now total) }
{
    let boards = copy_all(alloc, boards)?;
    Ok(Answer::Boards { boards, total })
}

fn copy_sprints(alloc: Global, sprints: &ToldSprints, total: u64) -> Result<Answer, Memory>
    ensures { IfOk result (λ a. a ≡ answers.Sprints sprints.now total) }
{
    let sprints = copy_all(alloc, sprints)?;
    Ok(Answer::Sprints { sprints, total })
}

// ---- the parts of answers

impl Copied for BurnedRow {
    fn copy(&self, alloc: Global) -> Result<Self, Memory> {
        let issue = self.issue.copy(alloc)?;
        Ok(BurnedRow {
            at: self.at,
            by: self.by,
            change: self.change,
            issue,
            left: self.left,
        })
    }
}

impl Copied for RankedKey {
    fn copy(&self, alloc: Global) -> Result<Self, Memory> {
        let issue = self.issue.copy(alloc)?;
        let rank = self.rank.copy(alloc)?;
        Ok(RankedKey { issue, rank })
    }
}

impl Copied for Column {
    fn copy(&self, alloc: Global) -> Result<Self, Memory> {
        let issues = self.issues.copy(alloc)?;
        let status = self.status.copy(alloc)?;
        Ok(Column { issues, status })
    }
}

impl Copied for ToldEntry {
    fn copy(&self, alloc: Global) -> Result<Self, Memory> {
        let by = self.by.copy(alloc)?;
        let field = self.field.copy(alloc)?;
        let from = shown_if_any(alloc, self.from.as_ref())?;
        let to = shown_if_any(alloc, self.to.as_ref())?;
        Ok(ToldEntry {
            at: self.at,
            by,
            change: self.change,
            field,
            from,
            to,
        })
    }
}

impl Shown {
    fn copy(&self, alloc: Global) -> Result<Self, Memory>
        ensures { IfOk result (λ shown. shown ≡ self.now) }
    {
        match self {
            Shown::Text(text) => {
                let text = text.copy(alloc)?;
                Ok(Shown::Text(text))
            }
            Shown::List(names) => {
                let names = names.copy(alloc)?;
                Ok(Shown::List(names))
            }
            Shown::Number(number) => Ok(Shown::Number(*number)),
        }
    }
}

impl ShownField {
    fn copy(&self, alloc: Global) -> Result<Self, Memory>
        ensures { IfOk result (λ field. field ≡ self.now) }
    {
        let name = self.name.copy(alloc)?;
        let value = self.value.copy(alloc)?;
        Ok(ShownField { name, value })
    }
}

impl ShownFields {
    pub(crate) fn copy(&self, alloc: Global) -> Result<Self, Memory>
        ensures { IfOk result (λ fields. fields ≡ self.now) }
    {
        let mut fields = ShownFields::new(alloc);
        for field in self.as_slice() {
            fields.push(field.copy(alloc)?)?;
        }
        Ok(fields)
    }
}

// The value of one side of an entry, where it isn't empty.
fn shown_if_any(alloc: Global, shown: Option<&Shown>) -> Result<Option<Shown>, Memory>
    ensures { IfOk result (λ copy. copy ≡ option_map (λ s. s.now) shown.entry) }
{
    match shown {
        None => Ok(None),
        Some(shown) => {
            let shown = shown.copy(alloc)?;
            Ok(Some(shown))
        }
    }
}

impl Refusal {
    /// Another refusal of the same.
    pub fn copy(&self, alloc: Global) -> Result<Self, Memory>
        ensures { IfOk result (λ r. r ≡ self.now) }
    {
        match self {
            Refusal::Cause(cause) => {
                let cause = cause.copy(alloc)?;
                Ok(Refusal::Cause(cause))
            }
            Refusal::Keeper => Ok(Refusal::Keeper),
            Refusal::Memory => Ok(Refusal::Memory),
        }
    }
}

/// A copy of a text, where there is one.
pub(crate) fn text_if_any(alloc: Global, text: Option<&Text>) -> Result<Option<Text>, Memory>
    ensures { IfOk result (λ copy. copy ≡ option_map (λ t. t.now) text.entry) }
{
    match text {
        None => Ok(None),
        Some(text) => {
            let text = text.copy(alloc)?;
            Ok(Some(text))
        }
    }
}

/// A copy of a list of texts, where there is one.
pub(crate) fn names_if_any(alloc: Global, names: Option<&Names>) -> Result<Option<Names>, Memory>
    ensures { IfOk result (λ copy. copy ≡ option_map (λ n. n.now) names.entry) }
{
    match names {
        None => Ok(None),
        Some(names) => {
            let names = names.copy(alloc)?;
            Ok(Some(names))
        }
    }
}
