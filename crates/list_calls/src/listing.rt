// Issues as answers list them: their keys and their number.
ghost use Rattle.std.specs.Prelude.{◌≡◌, ◌+◌, IfOk, length, map};

use change_history::Issue;
use fields::{Memory, Names, Text};
use std::alloc::Global;
use tracker_calls::Part;

/// The issues' keys.
pub fn keys_of(alloc: Global, issues: &[&Issue]) -> Result<Names, Memory>
    ensures { IfOk result (λ keys. keys ≡ map (λ i. i.now.history.key) issues.now) }
{
    let mut keys = Names::new(alloc);
    for issue in issues {
        keys.push(Text::copy_of(alloc, issue.key().as_str())?)?;
    }
    Ok(keys)
}

/// How many issues there are.
pub fn count_of(issues: &[&Issue]) -> u64
    ensures { result ≡ length (map (λ i. i.now.history) issues.now) }
{
    issues.len() as u64
}

/// How many issues a part reaches over, from the first of all.
pub fn end_of(part: Part) -> usize
    ensures { result ≡ part.from + part.count }
{
    part.from as usize + part.count as usize
}
