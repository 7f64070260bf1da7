ghost use Rattle.std.specs.Prelude.{◌≡◌, [], length, map, IfOk};
ghost use Rattle.toml.specs.View.{table_view};
ghost use Rattle.setup_drafts.specs.Faults.{Answers};
ghost use Rattle.setup_drafts.specs.Entries.{entries_fault, with_name};
ghost use Rattle.setup_drafts.specs.Transitions.{transition_fault, transition_draft};

use crate::cell::{names_at, new_name_at, put_copy, rules_at, text_at};
use crate::fault::SetupFault;
use field_forms::name_form::NameForm;
use field_values::names::Names;
use field_values::sequence::Sequence;
use field_values::text::Text;
use std::alloc::Global;
use toml::Table;

/// A transition with the names of its statuses and the texts of its rules as they are written.
pub struct TransitionDraft {
    pub name: Text,
    pub from: Names,
    pub to: Text,
    pub conditions: Names,
    pub validators: Names,
    pub post: Names,
}

// Written by hand, so that whoever lets one go makes one call, and its proof takes one step there.
impl Drop for TransitionDraft {
    fn drop(self) {
        let TransitionDraft {
            name: _,
            from: _,
            to: _,
            conditions: _,
            validators: _,
            post: _,
        } = self;
    }
}

#[tactic(auto, unfolding(crate::specs::Transitions::transition_fault, crate::specs::Transitions::transition_draft))]
fn read_transition(
    alloc: Global,
    entry: &Table,
    earlier: &[Text],
) -> Result<TransitionDraft, SetupFault>
    ensures { Answers (transition_fault earlier.now (table_view entry.now))
        (transition_draft (table_view entry.now)) result }
{
    let name = new_name_at(alloc, entry, "name", NameForm::Plain, earlier)?;
    let from = names_at(alloc, entry, "from", NameForm::AnyText, 1, None)?;
    let to = text_at(alloc, entry, "to")?;
    let mut transition = TransitionDraft {
        name,
        from,
        to,
        conditions: Names::new(alloc),
        validators: Names::new(alloc),
        post: Names::new(alloc),
    };
    transition.conditions = rules_at(alloc, entry, "conditions")?;
    transition.validators = rules_at(alloc, entry, "validators")?;
    transition.post = rules_at(alloc, entry, "post")?;
    Ok(transition)
}

/// The transitions of these tables.
pub(crate) fn read_transitions(
    alloc: Global,
    entries: &[&Table],
) -> Result<Sequence<TransitionDraft>, SetupFault>
    ensures told { let tables = map (λ t. table_view t.now) entries.now in
        Answers (entries_fault transition_fault
        (with_name (λ e. (transition_draft e).name)) [] tables)
        (map transition_draft tables) result }
    ensures all { IfOk result (λ transitions. length transitions ≡ length entries.now) }
{
    let mut names = Names::new(alloc);
    let mut transitions = Sequence::new(alloc);
    for entry in entries {
        let transition = read_transition(alloc, entry, names.as_slice())?;
        put_copy(alloc, &mut names, &transition.name)?;
        transitions.push(transition)?;
    }
    Ok(transitions)
}
