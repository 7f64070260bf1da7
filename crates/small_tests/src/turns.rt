ghost use Rattle.std.specs.Prelude.{◌≡◌, ◌<◌, ◌+◌, ◌==◌, IfOk, vec_len};
ghost use Rattle.desk_turn.specs.Passes.{IsPassOf, caller_of, left_of};

use desk_turn::{Entry, Kept, Memory, Pass, Turn};
use std::alloc::Global;
use std::sync::Wait;
use std::test::Fail;
use std::thread::{Threads, join};

/// Adds up what it is asked, and has room for so many entries. To ask 0 is a look, which finds nothing.
#[derive(Drop)]
struct Sums {
    room: usize,
    sum: u64,
    entries: Vec<Entry<u64, u64>>,
}

impl Kept for Sums {
    type Ask = u64;

    type Told = u64;

    type Origin = usize;

    type State = u64;

    ghost origin = { λ s. s.room };

    ghost state = { λ s. s.sum };

    ghost history = { λ s. s.entries.items };

    ghost is_look = { λ ask. ask == 0 };

    fn enter(&mut self, caller: u32, ask: &u64) -> Result<Option<u64>, Memory> {
        if *ask == 0 {
            return Ok(None);
        }
        if self.entries.len() >= self.room {
            return Err(Memory);
        }
        let told = self.sum.wrapping_add(*ask);
        let entry = Entry {
            by: caller,
            ask: *ask,
            told,
        };
        if self.entries.push(entry).is_err() {
            return Err(Memory);
        }
        self.sum = told;
        Ok(Some(told))
    }
}

fn empty_sums(alloc: Global, room: usize) -> Sums
    ensures { (vec_len result.entries ≡ 0) × (result.sum ≡ 0) }
{
    Sums {
        room,
        sum: 0,
        entries: Vec::new(alloc),
    }
}

fn told<R: Wait>(
    rt: &R,
    turn: &Turn<Sums>,
    mut pass: Pass<Sums>,
    ask: u64,
) -> (Pass<Sums>, Result<Option<u64>, Memory>)
    requires { IsPassOf turn.now pass × (0 < left_of pass) }
    ensures { IsPassOf turn.now result.0 × (caller_of result.0 ≡ caller_of pass) }
{
    let answer = turn.tell(rt, &mut pass, &ask);
    (pass, answer)
}

/// What two passes told, and how many calls their receipts list.
#[derive(Drop)]
struct Added {
    sums: Sums,
    first: Option<u64>,
    second: Option<u64>,
    calls: u64,
}

fn add_by_two<R: Threads + Wait + Sync>(
    rt: &R,
    alloc: Global,
    a: u64,
    b: u64,
) -> Result<Added, Memory>
    ensures { IfOk result (λ r. vec_len r.sums.entries ≡ r.calls) }
{
    let (turn, mut first) = match Turn::open(alloc, empty_sums(alloc, 2), 2) {
        Ok(made) => made,
        Err((memory, _)) => return Err(memory),
    };
    let one = turn.split(&mut first, 1)?;
    let two = turn.split(&mut first, 1)?;
    let line = &turn;
    let ((one, told_one), (two, told_two)) = join(
        rt,
        move || -> (Pass<Sums>, Result<Option<u64>, Memory>)
            requires { IsPassOf line.now one × (0 < left_of one) }
            ensures { IsPassOf line.entry.now result.0 × (caller_of result.0 ≡ caller_of one) }
        { told(rt, line, one, a) },
        move || -> (Pass<Sums>, Result<Option<u64>, Memory>)
            requires { IsPassOf line.now two × (0 < left_of two) }
            ensures { IsPassOf line.entry.now result.0 × (caller_of result.0 ≡ caller_of two) }
        { told(rt, line, two, b) },
    );
    let one = turn.join(&mut first, one);
    let two = turn.join(&mut first, two);
    let calls = one.calls() as u64 + two.calls() as u64;
    let sums = turn.close(first);
    Ok(Added {
        sums,
        first: told_one?,
        second: told_two?,
        calls,
    })
}

#[test]
fn two_threads_add_up(rt: HostRuntime) -> Result<(), Fail> {
    let Ok(added) = add_by_two(&rt, rt.alloc(), 5, 7) else {
        panic!(rt; "no memory")
    };
    let answers = (added.first, added.second);
    assert!(rt; added.sums.sum == 12 && added.sums.entries.len() == 2 && added.calls == 2);
    assert!(rt; answers == (Some(5), Some(12)) || answers == (Some(12), Some(7)));
    Ok(())
}

#[test]
fn a_pass_may_be_joined_unused(rt: HostRuntime) -> Result<(), Fail> {
    let Ok((turn, mut first)) = Turn::open(rt.alloc(), empty_sums(rt.alloc(), 2), 3) else {
        panic!(rt; "no memory")
    };
    let Ok(unused) = turn.split(&mut first, 2) else {
        panic!(rt; "no memory")
    };
    assert!(rt; (unused.caller(), unused.left(), first.left(), first.out()) == (1, 2, 1, 1));
    let receipt = turn.join(&mut first, unused);
    assert!(rt; (receipt.calls(), first.caller(), first.left(), first.out()) == (0, 0, 1, 0));
    let answer = turn.tell(&rt, &mut first, &9);
    assert!(rt; answer == Ok(Some(9)) && first.left() == 0);
    let kept = turn.close(first);
    assert!(rt; kept.sum == 9 && kept.entries.len() == 1);
    Ok(())
}

#[test]
fn a_refusal_uses_up_a_call_and_leaves_the_value(rt: HostRuntime) -> Result<(), Fail> {
    let Ok((turn, mut first)) = Turn::open(rt.alloc(), empty_sums(rt.alloc(), 1), 4) else {
        panic!(rt; "no memory")
    };
    let entered = turn.tell(&rt, &mut first, &5);
    assert!(rt; entered == Ok(Some(5)) && first.left() == 3);
    let refused = turn.tell(&rt, &mut first, &7);
    assert!(rt; refused == Err(Memory) && first.left() == 2);
    let looked = turn.tell(&rt, &mut first, &0);
    assert!(rt; looked == Ok(None) && first.left() == 1);
    let kept = turn.close(first);
    assert!(rt; kept.sum == 5 && kept.entries.len() == 1);
    let asked = kept
        .entries
        .first()
        .map(|entry| (entry.by, entry.ask, entry.told));
    assert!(rt; asked == Some((0, 5, 5)));
    Ok(())
}

/// Also where an allocation fails: where it is one of `open`, the value comes back as it was, and where it is the call's own, the
/// call is refused, and the pass has one less.
#[test]
fn a_call_is_made_or_leaves_the_value(rt: HostRuntime) -> Result<(), Fail> {
    let (turn, mut first) = match Turn::open(rt.alloc(), empty_sums(rt.alloc(), 3), 2) {
        Ok(made) => made,
        Err((Memory, value)) => {
            assert!(rt; value.room == 3 && value.sum == 0 && value.entries.is_empty());
            return Ok(());
        }
    };
    let answer = turn.tell(&rt, &mut first, &5);
    let left = first.left();
    let kept = turn.close(first);
    let entries = kept.entries.len();
    let is_made = (answer, kept.sum, entries) == (Ok(Some(5)), 5, 1);
    let is_refused = (answer, kept.sum, entries) == (Err(Memory), 0, 0);
    assert!(rt; is_made || is_refused);
    assert_eq!(rt; (left, kept.room), (1, 3));
    Ok(())
}

/// Also where an allocation fails: then the value comes back as it was.
#[test]
fn opening_and_closing_gives_the_value(rt: HostRuntime) -> Result<(), Fail> {
    let kept = match Turn::open(rt.alloc(), empty_sums(rt.alloc(), 3), 1) {
        Ok((turn, first)) => turn.close(first),
        Err((Memory, value)) => value,
    };
    assert!(rt; kept.room == 3 && kept.sum == 0 && kept.entries.is_empty());
    Ok(())
}
