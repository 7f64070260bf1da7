// What may stand among the first so many issues in an order, so that the others needn't be put in order.
ghost use Rattle.std.specs.Prelude.{◌≡◌, ◌∷◌, List, OnOk, filter, map, not, take};
ghost use Rattle.jql_bound.specs.declared.order.OrderKey.{OrderKey};
ghost use Rattle.jql_eval.specs.Standings.{seen};
ghost use Rattle.tracker_machine.specs.Search.{listed};
ghost use Rattle.list_calls.specs.Sorting.{stands_before};

use crate::in_order::{Placed, placed_by, take_out};
use change_history::Issue;
use fields::Memory;
use jql_bound::{Direction, OrderKey};
use jql_eval::{Standing, directed, standing_cmp};
use std::alloc::Global;
use tracker_state::State;

/// One issue in so many is in the sample that tells where to cut.
const ONE_IN: usize = 16;

/// Of the sample stand before the cut as many as its share of those that are wanted, a quarter more, and so many: a sample isn't exact.
const SPARE: usize = 8;

/// Lets go of issues that the first sort key has stand behind so many others. What is left keeps its turn.
pub(crate) fn keep_foremost<'s>(
    alloc: Global,
    state: &'s State,
    keys: &[OrderKey],
    wanted: usize,
    issues: &mut Vec<&'s Issue>,
) -> Result<(), Memory>
    ensures { OnOk result (take wanted (listed state.now.machine.setup keys.now
        state.now.machine.order
        (map (λ i. i.now.history) issues.new.items))
        ≡ take wanted (listed state.now.machine.setup keys.now state.now.machine.order
        (map (λ i. i.now.history) issues.old.items))) }
{
    let Some(key) = keys.first() else {
        return Ok(());
    };
    // So few are sooner put in order than cut.
    if issues.len() / ONE_IN <= place_of_cut(wanted) {
        return Ok(());
    }
    keep_by_key(alloc, state, *key, wanted, issues)?;
    Ok(())
}

// The same by one sort key, whatever keys come behind it.
fn keep_by_key<'s>(
    alloc: Global,
    state: &'s State,
    key: OrderKey,
    wanted: usize,
    issues: &mut Vec<&'s Issue>,
) -> Result<(), Memory>
    ensures { OnOk result ((keys : List OrderKey) → take wanted
        (listed state.now.machine.setup (key ∷ keys) state.now.machine.order
        (map (λ i. i.now.history) issues.new.items))
        ≡ take wanted (listed state.now.machine.setup (key ∷ keys) state.now.machine.order
        (map (λ i. i.now.history) issues.old.items))) }
{
    let mut placed = placed_by(alloc, state, key.field, issues.as_slice())?;
    let Some(cut) = cut_at(alloc, key.direction, placed.as_slice(), wanted)? else {
        return Ok(());
    };
    keep_up_to(key.direction, &cut, &mut placed);
    // A sample can mislead. Wherever the list is cut, it is right as long as enough are left.
    if placed.len() < wanted {
        return Ok(());
    }
    take_out(placed.as_slice(), issues)?;
    Ok(())
}

// Keeps those that don't stand behind the standing.
fn keep_up_to(direction: Direction, cut: &Standing<'_>, placed: &mut Vec<Placed<'_>>)
    ensures { placed.new.items
        ≡ filter (λ one. not (stands_before direction (seen cut.now) (seen one.standing)))
        placed.old.items }
{
    placed.retain(|one| !stands_behind(direction, one, cut));
}

fn stands_behind(direction: Direction, one: &Placed<'_>, cut: &Standing<'_>) -> bool
    ensures { result ≡ stands_before direction (seen cut.now) (seen one.now.standing) }
{
    directed(direction, standing_cmp(cut, &one.standing)).is_lt()
}

// Where to cut: a standing that somewhat more issues stand before than are wanted, as a sample of them tells; `None` where
// the sample is too small.
fn cut_at<'s>(
    alloc: Global,
    direction: Direction,
    placed: &[Placed<'s>],
    wanted: usize,
) -> Result<Option<Standing<'s>>, Memory> {
    let mut sample = Vec::with_capacity(alloc, placed.len() / ONE_IN + 1)?;
    for (place, one) in placed.iter().enumerate() {
        if place % ONE_IN == 0 {
            sample.push(one.standing)?;
        }
    }
    let place = place_of_cut(wanted);
    if sample.len() <= place {
        return Ok(None);
    }
    let (_, cut, _) = sample.select_nth_unstable_by(
        place,
        |one, other| directed(direction, standing_cmp(one, other)),
    );
    Ok(Some(*cut))
}

// How many of the sample are to stand before the cut.
fn place_of_cut(wanted: usize) -> usize {
    wanted / ONE_IN + wanted / ONE_IN / 4 + SPARE
}
