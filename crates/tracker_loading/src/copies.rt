//! Copies of what rows tell.
ghost use Rattle.std.specs.Prelude.{◌≡◌, IfOk};

use change_history::{Change, Changes, Entries, Entry, Group};
use field_values::Memory;
use sprints::Sprint;
use std::alloc::Global;

/// The same opening values.
pub(crate) fn changes_copy(alloc: Global, changes: &[Change]) -> Result<Changes, Memory>
    ensures { IfOk result (λ copy. copy ≡ changes.now) }
{
    let mut copy = Changes::with_capacity(alloc, changes.len())?;
    for change in changes {
        let to = change.to.copy(alloc)?;
        copy.push(Change {
            field: change.field,
            to,
        })?;
    }
    Ok(copy)
}

fn entry_copy(alloc: Global, entry: &Entry) -> Result<Entry, Memory>
    ensures { IfOk result (λ copy. copy ≡ entry.now) }
{
    let from = entry.from.copy(alloc)?;
    let to = entry.to.copy(alloc)?;
    Ok(Entry {
        change: entry.change,
        at: entry.at,
        author: entry.author,
        field: entry.field,
        from,
        to,
    })
}

fn entries_copy(alloc: Global, entries: &[Entry]) -> Result<Entries, Memory>
    ensures { IfOk result (λ copy. copy ≡ entries.now) }
{
    let mut copy = Entries::with_capacity(alloc, entries.len())?;
    for entry in entries {
        copy.push(entry_copy(alloc, entry)?)?;
    }
    Ok(copy)
}

/// The same change group.
pub(crate) fn group_copy(alloc: Global, group: &Group) -> Result<Group, Memory>
    ensures { IfOk result (λ copy. copy ≡ group.now) }
{
    let entries = entries_copy(alloc, group.entries.as_slice())?;
    Ok(Group {
        change: group.change,
        at: group.at,
        author: group.author,
        entries,
    })
}

/// The same sprint.
pub(crate) fn sprint_copy(alloc: Global, sprint: &Sprint) -> Result<Sprint, Memory>
    ensures { IfOk result (λ copy. copy ≡ sprint.now) }
{
    let name = sprint.name.copy(alloc)?;
    Ok(Sprint {
        name,
        state: sprint.state,
    })
}
