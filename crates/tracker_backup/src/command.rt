// The top call.
ghost use Rattle.std.specs.Prelude.{◌≡◌, ◌⊎◌, ◌≤◌, map, string_bytes};
ghost use Rattle.request_lines.specs.Causes.{Rose};
ghost use Rattle.tracker_backup.specs.Dumping.{DumpEnd, IsDumped};
ghost use Rattle.tracker_backup.specs.Ends.{HasItsRows, HasSome, IsDump, IsRestore, UsageEnd};
ghost use Rattle.tracker_backup.specs.Restoring.{IsRestored, RestoreEnd};

use crate::dump::dump;
use crate::restore::restore;
use crate::words::{Word, word_in};
use request_lines::{Sink, Source};
use status_texts::tell;
use std::alloc::Global;
use tracker_keeper::Keeper;

/// Carries out `dump` or `restore`, answers the status and hands the keeper back: 0 all was done; 1 the words are neither's; 2 the
/// source failed; 3 the sink failed; 4 the keeper failed; 5 the rows of the input are no tracker's; 6 want of memory; 7 the input passes
/// its limit; 8 a line of it is no row's; 9 the keeper has rows already.
pub fn back_up<S: Source, T: Sink, P: Keeper + Drop>(
    alloc: Global,
    words: &[String],
    input: &mut S,
    out: &mut T,
    keeper: P,
) -> (u8, P)
    // `dump` writes all rows that the keeper has, and reads nothing.
    ensures dump { IsDump (map string_bytes words.now) →
        DumpEnd (IsDumped P.keeps P.tells keeper result.1) result.0
        (T.taken out.old) (T.taken out.new)
        × HasItsRows P.keeps keeper result.1 × (S.left input.new ≡ S.left input.old) }

    // `restore` leaves just the rows of the input, or those that were there.
    ensures restore { IsRestore (map string_bytes words.now) →
        RestoreEnd (IsRestored P.keeps P.tells keeper result.1)
        (HasItsRows P.keeps keeper result.1) (HasSome P.keeps P.tells keeper result.1)
        result.0 (S.left input.old) (S.left input.new) (T.taken out.old) (T.taken out.new) }

    // Other words have the usage line.
    ensures usage { ¬ (IsDump (map string_bytes words.now) ⊎ IsRestore (map string_bytes words.now))
        → UsageEnd result.0 (T.taken out.old) (T.taken out.new)
        × HasItsRows P.keeps keeper result.1 }
    ensures words { result.0 ≡ 1
        → ¬ (IsDump (map string_bytes words.now) ⊎ IsRestore (map string_bytes words.now)) }

    // A fault of the outside is told only where the outside counted one.
    ensures read_cause { result.0 ≡ 2 → Rose (S.faults input.old) (S.faults input.new) }
    ensures write_cause { result.0 ≡ 3 → Rose (T.faults out.old) (T.faults out.new) }
    ensures keeper_cause { result.0 ≡ 4 → Rose (P.faults keeper) (P.faults result.1) }
    ensures read_later { S.faults input.old ≤ S.faults input.new }
    ensures write_later { T.faults out.old ≤ T.faults out.new }
{
    match word_in(words) {
        Some(Word::Dump) => dump(alloc, out, keeper),
        Some(Word::Restore) => restore(alloc, input, out, keeper),
        None => (
            tell(
                out,
                b"usage: exec, check, init, import USER, export, generate N\n",
                1,
            ),
            keeper,
        ),
    }
}

/// Whether the first of the words is one of the two commands.
pub fn is_backup(words: &[String]) -> bool {
    match words.first() {
        Some(word) => word.as_str() == "dump" || word.as_str() == "restore",
        None => false,
    }
}
