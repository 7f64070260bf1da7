//! Two runs, told together.
ghost use Rattle.std.specs.Prelude.{map, string_bytes};
ghost use Rattle.run_laws.specs.Twice.{IsDone, Had, TellTheSame};

use fields::BUILT_IN;
use request_lines::{Sink, Source};
use std::alloc::Global;
use tracker_cli::run;
use tracker_keeper::Keeper;

/// Runs a command twice, over two inputs and two keepers. Of two runs of `exec` whose keepers had the same rows, and whose inputs
/// differ in what is hidden from a user alone, the lines that reply to the user are the same in both outputs, byte by byte.
pub fn run_twice<S: Source, T: Sink, P: Keeper + Drop>(
    alloc: Global,
    words: &[String],
    input: &mut S,
    out: &mut T,
    keeper: P,
    other_input: &mut S,
    other_out: &mut T,
    other_keeper: P,
) -> ((u8, P), (u8, P))
    ensures { TellTheSame
        (IsDone (map string_bytes words.now) result.0.0 (S.left input.old)
        (T.taken out.old) (T.taken out.new))
        (IsDone (map string_bytes words.now) result.1.0 (S.left other_input.old)
        (T.taken other_out.old) (T.taken other_out.new))
        (Had P.keeps P.tells keeper result.0.1) (Had P.keeps P.tells other_keeper result.1.1)
        BUILT_IN.now }
{
    let first = run(alloc, words, input, out, keeper);
    let second = run(alloc, words, other_input, other_out, other_keeper);
    (first, second)
}
