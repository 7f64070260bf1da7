use super::placing::is;
use field_values::{Moment, SprintNo, Text};
use sprints::{SprintFault, SprintState, Sprints};
use std::alloc::Global;

/// What a sprint that starts at 5 as change 6 and closes at 9 as change 8 has come to.
#[derive(Clone, Copy)]
enum Phase {
    Future,
    Active,
    Closed,
}

fn state_in(phase: Phase) -> Option<SprintState> {
    let start_at = Moment::new(5)?;
    let end_at = Moment::new(9)?;
    match phase {
        Phase::Future => Some(SprintState::Future),
        Phase::Active => Some(SprintState::Active {
            at: start_at,
            change: 6,
        }),
        Phase::Closed => Some(SprintState::Closed {
            start_at,
            start_change: 6,
            at: end_at,
            change: 8,
        }),
    }
}

const STARTS: bool = true;

const ALLOWED: bool = true;

/// Whether sprint 1 starts or closes, at which moment and as which change, and whether that is allowed, with its phase afterwards.
const ROWS: [(bool, u64, u64, bool, Phase); 6] = [
    (false, 4, 5, false, Phase::Future),
    (STARTS, 5, 6, ALLOWED, Phase::Active),
    (STARTS, 7, 7, false, Phase::Active),
    (false, 9, 8, ALLOWED, Phase::Closed),
    (false, 9, 9, false, Phase::Closed),
    (STARTS, 9, 9, false, Phase::Closed),
];

/// Has the first sprint start or close where its state allows that, and tells whether it did. `None` where it isn't there.
fn moved(sprints: &mut Sprints, starts: bool, seconds: u64, change: u64) -> Option<bool> {
    let at = Moment::new(seconds)?;
    let sprint = SprintNo(1);
    let kept = sprints.state(sprint)?;
    let next = if starts {
        kept.after_start(at, change)
    } else {
        kept.after_close(at, change)
    };
    let Some(next) = next else {
        return Some(false);
    };
    sprints.turn(sprint, next);
    Some(true)
}

fn follow(sprints: &mut Sprints) -> Option<()> {
    for &(starts, seconds, change, is_allowed, phase) in &ROWS {
        let state = state_in(phase)?;
        is(moved(sprints, starts, seconds, change)? == is_allowed)?;
        is(sprints.state(SprintNo(1)) == Some(state))?;
        is(sprints.state(SprintNo(2)) == Some(SprintState::Future))?;
    }
    Some(())
}

/// Makes a sprint, and tells the answer.
fn made(alloc: Global, sprints: &mut Sprints, name: &str) -> Option<Result<SprintNo, SprintFault>> {
    let name = Text::copy_of(alloc, name).ok()?;
    Some(sprints.create(name))
}

/// Makes a sprint of that number, which is future then.
fn make(alloc: Global, sprints: &mut Sprints, name: &str, number: u32) -> Option<()> {
    is(made(alloc, sprints, name)? == Ok(SprintNo(number)))?;
    is(sprints.state(SprintNo(number)) == Some(SprintState::Future))
}

fn make_two(alloc: Global, sprints: &mut Sprints) -> Option<()> {
    make(alloc, sprints, "March", 1)?;
    make(alloc, sprints, "April", 2)
}

fn tells_two(sprints: &Sprints) -> Option<bool> {
    is(sprints.state(SprintNo(0)) == None)?;
    is(sprints.state(SprintNo(3)) == None)?;
    Some(sprints.name(SprintNo(2))?.as_str() == "April")
}

#[test]
fn states_follow_one_another(rt: HostRuntime) {
    let mut sprints = Sprints::empty(rt.alloc());
    let passes = make_two(rt.alloc(), &mut sprints).is_some()
        && follow(&mut sprints).is_some()
        && tells_two(&sprints) == Some(true);
    assert!(rt; passes);
}

fn make_all(alloc: Global, sprints: &mut Sprints) -> Option<()> {
    sprints.reserve().ok()?;
    for number in 1..1001 {
        make(alloc, sprints, "S", number)?;
    }
    is(made(alloc, sprints, "one more")? == Err(SprintFault::Full))?;
    is(sprints.count() == 1000)
}

#[test]
fn a_thousand_sprints_are_all(rt: HostRuntime) {
    let mut sprints = Sprints::empty(rt.alloc());
    let passes = make_all(rt.alloc(), &mut sprints).is_some();
    assert!(rt; passes);
}
