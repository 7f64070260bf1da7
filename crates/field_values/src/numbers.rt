// The numbers by which things are known. A place counts from 0 in the setup's list.

/// A user's place in the setup's list.
#[derive(Clone, Copy, PartialEq, Eq, PartialOrd, Ord)]
pub struct UserNo(pub u16);

/// A project's place in the setup's list.
#[derive(Clone, Copy, PartialEq, Eq, PartialOrd, Ord)]
pub struct ProjectNo(pub u16);

/// A group by its place in the setup's list, counted from 1.
#[derive(Clone, Copy, PartialEq, Eq, PartialOrd, Ord)]
pub struct GroupNo(pub u16);

/// A choice's place in the list of its field's choices.
#[derive(Clone, Copy, PartialEq, Eq, PartialOrd, Ord)]
pub struct ChoiceNo(pub u16);

/// A field by its number: 1 to 13, or 10000 to 19999 for a field of the setup's own.
#[derive(Clone, Copy, PartialEq, Eq, PartialOrd, Ord)]
pub struct FieldNo(pub u16);

// The fields that every tracker has.
impl FieldNo {
    pub const TYPE: FieldNo = FieldNo(1);

    pub const SUMMARY: FieldNo = FieldNo(2);

    pub const DESCRIPTION: FieldNo = FieldNo(3);

    pub const STATUS: FieldNo = FieldNo(4);

    pub const ASSIGNEE: FieldNo = FieldNo(5);

    pub const REPORTER: FieldNo = FieldNo(6);

    pub const PRIORITY: FieldNo = FieldNo(7);

    pub const RESOLUTION: FieldNo = FieldNo(8);

    pub const FIX_VERSION: FieldNo = FieldNo(9);

    pub const LABELS: FieldNo = FieldNo(10);

    pub const DUE: FieldNo = FieldNo(11);

    pub const POINTS: FieldNo = FieldNo(12);

    pub const SPRINT: FieldNo = FieldNo(13);
}

/// An issue, numbered from 1 over the whole tracker in order of creation.
#[derive(Clone, Copy, Debug, PartialEq, Eq, PartialOrd, Ord)]
pub struct IssueNo(pub u32);

/// A sprint, numbered from 1 in order of creation.
#[derive(Clone, Copy, Debug, PartialEq, Eq, PartialOrd, Ord)]
pub struct SprintNo(pub u32);

/// A saved filter, numbered from 1; a number that is let go is given again.
#[derive(Clone, Copy, Debug, PartialEq, Eq, PartialOrd, Ord)]
pub struct FilterNo(pub u32);

/// A board, numbered from 1; a number that is let go is given again.
#[derive(Clone, Copy, PartialEq, Eq, PartialOrd, Ord)]
pub struct BoardNo(pub u32);

/// A local day, counted from 1970-01-01, which is day 0.
#[derive(Clone, Copy, PartialEq, Eq, PartialOrd, Ord)]
pub struct Day(pub i32);

impl Day {
    /// 2099-12-31.
    pub const LAST: Day = Day(47_481);
}
