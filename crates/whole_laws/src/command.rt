//! A command in which nothing outside failed.
ghost use Rattle.std.specs.Prelude.{map, string_bytes};
ghost use Rattle.tracker_cli.specs.Outcome.{HasRowsBehind};
ghost use Rattle.run_laws.specs.Twice.{Had};
ghost use Rattle.run_laws.specs.Whole.{NoneFailed};
ghost use Rattle.whole_laws.specs.Commands.{UsageIsTold, AllAreChecked, IsMade, AllIsExported, AllAreImported, AllIsLoaded, NoneIsRefused};

use fields::BUILT_IN;
use request_lines::{Sink, Source};
use std::alloc::Global;
use tracker_cli::run;
use tracker_keeper::Keeper;

/// Runs a command. Where neither the source nor the sink nor the keeper failed, the input is one of the command's, and the rows that it
/// began with are as the command wants them, all was done; or the run ended for want of memory. `run_laws` says it of `exec`.
pub fn run_command<S: Source, T: Sink, P: Keeper + Drop>(
    alloc: Global,
    words: &[String],
    input: &mut S,
    out: &mut T,
    keeper: P,
) -> (u8, P)
    // Words that are no command's are told so.
    ensures usage { UsageIsTold
        (NoneFailed (S.faults input.old) (S.faults input.new) (T.faults out.old) (T.faults out.new)
        (P.faults keeper) (P.faults result.1))
        (map string_bytes words.now) result.0 (T.taken out.old) (T.taken out.new) }

    // Of `check`, whatever the keeper has.
    ensures check { AllAreChecked
        (NoneFailed (S.faults input.old) (S.faults input.new) (T.faults out.old) (T.faults out.new)
        (P.faults keeper) (P.faults result.1))
        (map string_bytes words.now) result.0 (S.left input.old) (T.taken out.old)
        (T.taken out.new) }

    // Of a setup, and a keeper without rows.
    ensures init { IsMade (Had P.keeps P.tells keeper result.1)
        (NoneFailed (S.faults input.old) (S.faults input.new) (T.faults out.old) (T.faults out.new)
        (P.faults keeper) (P.faults result.1))
        (map string_bytes words.now) result.0 (S.left input.old) (T.taken out.old)
        (T.taken out.new) }

    // Of rows that are a tracker's, or none.
    ensures export { AllIsExported (Had P.keeps P.tells keeper result.1)
        (NoneFailed (S.faults input.old) (S.faults input.new) (T.faults out.old) (T.faults out.new)
        (P.faults keeper) (P.faults result.1))
        BUILT_IN.now (map string_bytes words.now) result.0 (T.taken out.old) (T.taken out.new) }

    // Of such rows, and an input without a bad record.
    ensures import { AllAreImported (Had P.keeps P.tells keeper result.1)
        (NoneFailed (S.faults input.old) (S.faults input.new) (T.faults out.old) (T.faults out.new)
        (P.faults keeper) (P.faults result.1))
        BUILT_IN.now (map string_bytes words.now) result.0 (S.left input.old) (T.taken out.old)
        (T.taken out.new) }

    // Of a keeper without rows.
    ensures generate { AllIsLoaded (Had P.keeps P.tells keeper result.1)
        (NoneFailed (S.faults input.old) (S.faults input.new) (T.faults out.old) (T.faults out.new)
        (P.faults keeper) (P.faults result.1))
        BUILT_IN.now (map string_bytes words.now) result.0 (T.taken out.old) (T.taken out.new) }

    // Whatever else failed, of `exec` too: where the keeper didn't, no line was answered that it did.
    ensures kept { NoneIsRefused (P.faults keeper) (P.faults result.1) result.0
        (HasRowsBehind P.keeps P.tells P.faults P.leaves keeper result.1) }
{
    run(alloc, words, input, out, keeper)
}
