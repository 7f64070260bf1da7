ghost use Rattle.std.specs.Prelude.{◌≡◌, [], IfOk, IfErr};

use crate::kept::{Kept, Memory};
use crate::pass::Pass;
use crate::rule::{Start, TableOf};
use atomic_table::{Refused, Table};
use std::alloc::Global;
use std::snapshot::Snapshot;

/// A value that several callers call one after another, each with a pass of its own.
///
/// Threads share the turn by reference. What a pass knows of the history is in contracts alone.
#[derive(Drop)]
pub struct Turn<V: Kept> {
    pub(crate) table: TableOf<V>,
    ghost sized: { (table.shared.table_id.words ≡ 4) × (table.shared.table_id.slots ≡ 1) },
}

impl<V: Kept> Turn<V> {
    ghost use Rattle.desk_turn.specs.History.{IsAccountedFor};
    ghost use Rattle.desk_turn.specs.Passes.{IsPassOf, opened_with, caller_of, left_of, made_of, out_of, seen, own, lists};

    /// A turn over a value that was not called yet, with the first pass, of caller number 0,
    /// which may make `most` calls. These are all that will ever be made, by whichever pass.
    ///
    /// Without memory the value is handed back.
    pub fn open(alloc: Global, value: V, most: u32) -> Result<(Turn<V>, Pass<V>), (Memory, V)>
        requires empty { V.history value ≡ [] }
        ensures turn { IfOk result (λ t. (opened_with t.0 ≡ value) × IsPassOf t.0 t.1) }
        ensures numbers { IfOk result (λ t. (caller_of t.1 ≡ 0) × (left_of t.1 ≡ most)
            × (made_of t.1 ≡ 0) × (out_of t.1 ≡ 0)) }
        ensures history { IfOk result (λ t. (seen t.1 ≡ []) × (own t.1 ≡ []) × (lists t.1 ≡ [])) }
        ensures memory { IfErr result (λ e. e.1 ≡ value) }
    {
        let about = Start {
            most,
            value: Snapshot::of(&value),
        };
        let mut slots = match Vec::with_capacity(alloc, 1) {
            Ok(slots) => slots,
            Err(_) => return Err((Memory, value)),
        };
        slots.push_reserved(Some(value));
        match Table::new(alloc, &[0, 0, 0, 0], slots, &about) {
            Ok((table, seat)) => Ok((
                Turn { table },
                Pass {
                    seat,
                    caller: 0,
                    left: most,
                    made: 0,
                    out: 0,
                    calls: 0,
                },
            )),
            Err(Refused { mut slots }) => {
                let Some(Some(value)) = slots.pop() else {
                    unreachable!()
                };
                slots.destroy_empty();
                Err((Memory, value))
            }
        }
    }

    /// Ends the turn and gives the value, once every pass that was split off was joined again.
    pub fn close(self, first: Pass<V>) -> V
        requires turn { IsPassOf self first }
        requires joined { (caller_of first ≡ 0) × (out_of first ≡ 0) }
        ensures origin { V.origin result ≡ V.origin (opened_with self) }
        ensures history { IsAccountedFor (V.history result) (seen first) (own first) (lists first) }
    {
        let Turn { table } = self;
        let Pass {
            seat,
            caller: _,
            left: _,
            made: _,
            out: _,
            calls: _,
        } = first;
        let mut closed = table.close_with(seat);
        let Some(value) = closed.take(0) else {
            unreachable!()
        };
        closed.free();
        value
    }
}
