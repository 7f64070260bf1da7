//! The words and values that every crate of the tracker shares: moments, numbers of things, texts, what a field
//! holds, and the parts of which a setup is made.
#![tactic(auto)]

pub mod digits;
pub mod field;
pub mod membership;
pub mod memory;
pub mod moment;
pub mod names;
pub mod numbers;
pub mod offset;
pub mod parts;
pub mod rules;
pub mod sequence;
pub mod status;
pub mod steps;
pub mod text;
pub mod value;
pub mod words;

pub use field::Field;
pub use memory::Memory;
pub use moment::Moment;
pub use names::Names;
pub use numbers::{
    BoardNo, ChoiceNo, Day, FieldNo, FilterNo, GroupNo, IssueNo, ProjectNo, SprintNo, UserNo,
};
pub use offset::Offset;
pub use parts::{Group, Project, Transition};
pub use rules::{CallerTest, Condition, Permission, PostFunction, Validator};
pub use sequence::Sequence;
pub use status::Status;
pub use steps::Steps;
pub use text::Text;
pub use value::Value;
pub use words::{Category, FieldKind, Weekday};
