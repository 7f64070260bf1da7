use request_lines::{Clock, ListClock};
use std::test::Fail;

/// The last second of the year 2099, behind which a clock doesn't go.
const LAST: u64 = 4_102_444_799;

#[test]
fn a_clock_gives_its_readings_and_stays_at_the_last_one(rt: HostRuntime) -> Result<(), Fail> {
    let alloc = rt.alloc();
    let readings = [5u64, 3, LAST + 1].to_vec(alloc)?;
    let mut clock = ListClock::new(readings);
    let shown = [5, 3, LAST, LAST];
    for place in 0..shown.len() {
        assert_eq!(rt; clock.now(), shown[place]);
    }
    Ok(())
}

#[test]
fn a_clock_without_readings_stands_at_0(rt: HostRuntime) -> Result<(), Fail> {
    let alloc = rt.alloc();
    let mut clock = ListClock::new(Vec::new(alloc));
    assert_eq!(rt; clock.now(), 0);
    Ok(())
}
