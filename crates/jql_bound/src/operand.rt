use crate::context::Phase;
use field_values::{ChoiceNo, GroupNo, Sequence, SprintNo, Text, UserNo};
use relative_dates::Term;

/// What a field is compared with. It stands for one value, or for several that it names together.
pub enum Operand {
    /// That there is no value.
    Empty,
    /// A choice of the field.
    Choice(ChoiceNo),
    /// The statuses of one category.
    Statuses(Sequence<ChoiceNo>),
    User(UserNo),
    /// The users that a group has at the time.
    MembersOf(GroupNo),
    Label(Text),
    /// Thousandths.
    Number(i64),
    /// The second that a date means at the time.
    Date(Term),
    Sprint(SprintNo),
    /// The sprints that are in a phase at the time.
    SprintsIn(Phase),
    /// A project's key.
    Project(Text),
    /// An issue's key.
    Issue(Text),
}

// Written by hand, so that whoever lets one go makes one call, and its proof takes one step there.
impl Drop for Operand {
    fn drop(self) {
        match self {
            Operand::Empty
            | Operand::Choice(_)
            | Operand::Statuses(_)
            | Operand::User(_)
            | Operand::MembersOf(_)
            | Operand::Label(_)
            | Operand::Number(_)
            | Operand::Date(_)
            | Operand::Sprint(_)
            | Operand::SprintsIn(_)
            | Operand::Project(_)
            | Operand::Issue(_) => {}
        }
    }
}
