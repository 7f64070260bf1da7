//! The setup of a tracker: who and what there is, what fits a field, and who may do what. It stands on the crates of
//! values, of their forms and of the reading of a setup's text, and gives on what they name.
#![tactic(auto)]

mod fitting;
mod indexed_lists;
pub mod laws;
mod local_time;
mod lookup;
mod naming;
mod permissions;
mod places;
mod setup;
mod table_names;
mod values;

pub use field_values::{
    BoardNo, CallerTest, Category, ChoiceNo, Condition, Day, Field, FieldKind, FieldNo, FilterNo,
    Group, GroupNo, IssueNo, Memory, Moment, Names, Offset, Permission, PostFunction, Project,
    ProjectNo, Sequence, SprintNo, Status, Steps, Text, Transition, UserNo, Validator, Value,
    Weekday,
};
pub use naming::{built_in_fields, name_at};
pub use setup::Setup;
pub use setup_drafts::SetupFault;
pub use setup_reading::BUILT_IN;
