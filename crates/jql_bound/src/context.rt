ghost use Rattle.std.specs.Prelude.{◌≡◌, true};
ghost use Rattle.std.specs.List.{list_all};
ghost use Rattle.field_values.specs.GroupMembers.{is_user_list};

use field_values::{Sequence, UserNo};
use relative_dates::Calendar;

/// How far a sprint has come.
#[derive(Clone, Copy, PartialEq, Eq)]
pub enum Phase {
    Future,
    Active,
    Closed,
}

/// What decides beside an issue and the moment: the sprints, the groups and the calendar.
#[derive(Drop)]
pub struct Context {
    /// The phase of each sprint, by number from 1.
    pub sprints: Vec<Phase>,
    /// The users of each group, in the setup's order of groups.
    pub members: Vec<Sequence<UserNo>>,
    pub calendar: Calendar,
    // Each group's users stand in the setup's order, each once, so that one is found by halving.
    pub ghost in_order: { list_all (is_user_list 65_536) members.items ≡ true },
}
