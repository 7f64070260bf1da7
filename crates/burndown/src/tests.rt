ghost use Rattle.std.specs.Prelude.{◌≡◌, ℕ, IsTrue, IfSome, OnOk};
ghost use Rattle.burndown.specs.Group.{sprint_before};
ghost use Rattle.burndown.specs.Burndown.{course_of, FitsAfter, HasRoom, GrowsInRoom};
ghost use Rattle.burndown.specs.Small.{IsSmall, SmallBefore};

use crate::group::Group;
use crate::{BurnRow, Burndown, Share};
use field_values::{IssueNo, Memory, Moment, SprintNo};
use std::process::Abort;
use std::test::Fail;

fn sprint_of(before: &Option<Share>) -> Option<SprintNo>
    ensures { result ≡ sprint_before before.now }
{
    match before {
        Some(share) => share.sprint,
        None => None,
    }
}

/// Makes room for a sprint, if there is one.
fn room_for(burndown: &mut Burndown, sprint: Option<SprintNo>) -> Result<(), Memory>
    ensures room { OnOk result (IfSome sprint (λ s. HasRoom burndown.new s.0)) }
    ensures stands { OnOk result (GrowsInRoom burndown.old burndown.new) }
{
    match sprint {
        Some(sprint) => burndown.reserve(sprint),
        None => Ok(()),
    }
}

fn is_small(points: i64) -> bool
    ensures { IsTrue result → IsSmall points }
{
    -1_000_000 < points && points < 1_000_000
}

fn is_small_before(before: &Option<Share>) -> bool
    ensures { IsTrue result → SmallBefore before.now }
{
    match before {
        Some(share) => is_small(share.points),
        None => true,
    }
}

/// Whether the group is of small numbers, so that the sprint's total stays in range.
#[tactic(auto, using(crate::proofs::Courses::small_fits))]
fn fits_after(burndown: &Burndown, sprint: Option<SprintNo>, group: &Group) -> bool
    ensures { IsTrue result → IfSome sprint (λ s. FitsAfter burndown.now s.0 group.now) }
{
    let Some(sprint) = sprint else {
        return true;
    };
    if !is_small(burndown.remaining(sprint)) {
        return false;
    }
    if !is_small_before(&group.before) {
        return false;
    }
    is_small(group.after.points)
}

/// Takes a group in, after making room and looking at the sizes. No stage changes.
fn told(
    rt: &impl Abort,
    burndown: &mut Burndown,
    change: u64,
    issue: u32,
    before: Option<Share>,
    after: Share,
) -> Result<(), Memory>
    ensures stages { OnOk result ((s : ℕ)
        → (course_of burndown.new s).stage ≡ (course_of burndown.old s).stage) }
{
    let first = sprint_of(&before);
    room_for(burndown, first)?;
    room_for(burndown, after.sprint)?;
    let group = Group {
        change,
        at: Moment::first(),
        issue: IssueNo(issue),
        before,
        after,
    };
    assert!(rt; fits_after(burndown, first, &group));
    assert!(rt; fits_after(burndown, after.sprint, &group));
    burndown.row_after(change, Moment::first(), IssueNo(issue), before, after);
    Ok(())
}

/// The share of an issue in that sprint.
fn share(sprint: u32, points: i64, done: bool) -> Share {
    Share {
        sprint: Some(SprintNo(sprint)),
        points,
        done,
    }
}

fn row(change: u64, by: i64, left: i64) -> BurnRow {
    BurnRow {
        at: Moment::first(),
        change,
        issue: IssueNo(1),
        by,
        left,
    }
}

#[test]
fn points_rise_and_the_issue_is_done_and_opened_again(rt: HostRuntime) -> Result<(), Fail> {
    let mut burndown = Burndown::empty(rt.alloc());
    let sprint = SprintNo(1);
    told(&rt, &mut burndown, 1, 1, None, share(1, 3000, false))?;
    assert_eq!(rt; burndown.at_start(sprint), 3000);
    burndown.reserve(sprint)?;
    burndown.begin(sprint);
    let three = share(1, 3000, false);
    let five = share(1, 5000, false);
    let done = share(1, 5000, true);
    told(&rt, &mut burndown, 2, 1, Some(three), five)?;
    told(&rt, &mut burndown, 3, 1, Some(five), five)?;
    told(&rt, &mut burndown, 4, 1, Some(five), done)?;
    told(&rt, &mut burndown, 5, 1, Some(done), five)?;
    let rows = [row(2, 2000, 5000), row(4, -5000, 0), row(5, 5000, 5000)];
    assert_eq!(rt; burndown.rows(sprint), rows.as_slice());
    burndown.end(sprint);
    told(&rt, &mut burndown, 6, 1, Some(five), share(1, 1000, false))?;
    assert_eq!(rt; burndown.rows(sprint), rows.as_slice());
    assert_eq!(rt; burndown.remaining(sprint), 5000);
    assert_eq!(rt; burndown.at_start(sprint), 3000);
    Ok(())
}

#[test]
fn an_issue_goes_from_sprint_to_sprint(rt: HostRuntime) -> Result<(), Fail> {
    let mut burndown = Burndown::empty(rt.alloc());
    assert_eq!(rt; burndown.remaining(SprintNo(9)), 0);
    burndown.reserve(SprintNo(3))?;
    burndown.begin(SprintNo(3));
    told(&rt, &mut burndown, 1, 1, None, share(3, 4000, false))?;
    told(
        &rt,
        &mut burndown,
        2,
        1,
        Some(share(3, 4000, false)),
        share(2, 7000, false),
    )?;
    told(&rt, &mut burndown, 3, 2, None, share(3, 1500, true))?;
    let rows = [row(1, 4000, 4000), row(2, -4000, 0)];
    assert_eq!(rt; burndown.rows(SprintNo(3)), rows.as_slice());
    assert_eq!(rt; burndown.rows(SprintNo(2)).len(), 0);
    assert_eq!(rt; burndown.at_start(SprintNo(2)), 7000);
    let totals = [(SprintNo(2), 7000), (SprintNo(3), 0)];
    assert_eq!(rt; burndown.totals(), totals.as_slice());
    Ok(())
}
