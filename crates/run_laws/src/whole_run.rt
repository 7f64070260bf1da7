//! A run in which nothing outside failed.
ghost use Rattle.std.specs.Prelude.{map, string_bytes};
ghost use Rattle.run_laws.specs.Twice.{Had};
ghost use Rattle.run_laws.specs.Whole.{EndsWhole, NoneFailed};

use fields::BUILT_IN;
use request_lines::{Sink, Source};
use std::alloc::Global;
use tracker_cli::run;
use tracker_keeper::Keeper;

/// Runs a command. Where neither the source nor the sink nor the keeper failed in a run of `exec`, its input was within the limits, and
/// the rows that it began with are a tracker's or none, each line has the abstract tracker's own reply, or that there was not enough
/// memory; or the run ended for want of memory. No other status comes, and no line is answered that the keeper failed.
pub fn run_whole<S: Source, T: Sink, P: Keeper + Drop>(
    alloc: Global,
    words: &[String],
    input: &mut S,
    out: &mut T,
    keeper: P,
) -> (u8, P)
    ensures { EndsWhole (Had P.keeps P.tells keeper result.1)
        (NoneFailed (S.faults input.old) (S.faults input.new) (T.faults out.old) (T.faults out.new)
        (P.faults keeper) (P.faults result.1))
        BUILT_IN.now (map string_bytes words.now) result.0 (S.left input.old) (T.taken out.old)
        (T.taken out.new) }
{
    run(alloc, words, input, out, keeper)
}
