// Ranks that are given, and the refusal where none is left.
ghost use Rattle.std.specs.Prelude.{◌≡◌, List, option_map, Result, Ok, Some, IfOk};
ghost use Rattle.rank_strings.specs.Rank.{RankParts};
ghost use Rattle.rank_strings.specs.Text.{rank_text};
ghost use Rattle.board.specs.Moved.{Sides, IsRefusalOf};
ghost use Rattle.rank_balancer.specs.Step.{Move};
ghost use Rattle.tracker_machine.specs.Rank.{no_room};
ghost use Rattle.tracker_state.specs.Check.{IsRefusal, room_refusal};

use fields::{Memory, Text};
use rank_strings::{Rank, RankFault};
use std::alloc::Global;
use tracker_calls::{Cause, Refusal};

// The text of a rank, if it is one.
fn text_of(alloc: Global, rank: &Option<Rank>) -> Result<Option<Text>, Memory>
    ensures { IfOk result (λ text. text ≡ option_map rank_text rank.now) }
{
    match rank {
        Some(rank) => {
            let text = rank.text(alloc)?;
            Ok(Some(Text::copy_of(alloc, text.as_str())?))
        }
        None => Ok(None),
    }
}

fn texts_of(
    alloc: Global,
    low: &Option<Rank>,
    high: &Option<Rank>,
) -> Result<(Option<Text>, Option<Text>), Memory>
    ensures low { IfOk result (λ texts. texts.0 ≡ option_map rank_text low.now) }
    ensures high { IfOk result (λ texts. texts.1 ≡ option_map rank_text high.now) }
{
    let low = text_of(alloc, low)?;
    let high = text_of(alloc, high)?;
    Ok((low, high))
}

/// The refusal of a place for which no rank is left between these.
pub fn no_room(alloc: Global, low: &Option<Rank>, high: &Option<Rank>) -> Refusal
    ensures { IsRefusal (Some (no_room (low.now, high.now))) result }
{
    match texts_of(alloc, low, high) {
        Ok((low, high)) => Refusal::Cause(Cause::NoRoom { low, high }),
        Err(_) => Refusal::Memory,
    }
}

/// The refusal where none is given.
pub fn refusal_of(alloc: Global, fault: RankFault) -> Refusal
    ensures rank { (given : Result RankParts Sides) → IsRefusalOf given fault
        → IsRefusal (room_refusal given) result }
    ensures step { (given : Result (List Move) Sides) → IsRefusalOf given fault
        → IsRefusal (room_refusal given) result }
{
    match fault {
        RankFault::Exhausted { low, high } => no_room(alloc, &low, &high),
        RankFault::Memory => Refusal::Memory,
    }
}
