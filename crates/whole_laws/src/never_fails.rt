//! A command over a keeper that never fails.
ghost use Rattle.std.specs.Prelude.{◌≡◌};
ghost use Rattle.tracker_cli.specs.Outcome.{HasRowsBehind};
ghost use Rattle.whole_laws.specs.Commands.{IsUnrefused};

use crate::command::run_command;
use request_lines::{Sink, Source};
use std::alloc::Global;
use tracker_keeper::{Keeper, NeverFails};

/// Runs a command over a keeper whose count of faults stays 0. However the run ends, its status isn't that of a keeper that failed, and no
/// line was answered that it did.
pub fn run_unfailing<S: Source, T: Sink, P: Keeper + Drop>(
    alloc: Global,
    words: &[String],
    input: &mut S,
    out: &mut T,
    keeper: P,
) -> (u8, P)
    requires never { (k : P) → P.faults k ≡ 0 }
    ensures { IsUnrefused result.0
        (HasRowsBehind P.keeps P.tells P.faults P.leaves keeper result.1) }
{
    run_command(alloc, words, input, out, keeper)
}

/// The same over `NeverFails`, which is such a keeper.
pub fn run_over_never_fails<S: Source, T: Sink>(
    alloc: Global,
    words: &[String],
    input: &mut S,
    out: &mut T,
    keeper: NeverFails,
) -> (u8, NeverFails)
    ensures { IsUnrefused result.0
        (HasRowsBehind ⟦<NeverFails as Keeper>⟧.keeps ⟦<NeverFails as Keeper>⟧.tells
        ⟦<NeverFails as Keeper>⟧.faults ⟦<NeverFails as Keeper>⟧.leaves keeper result.1) }
{
    run_unfailing(alloc, words, input, out, keeper)
}
