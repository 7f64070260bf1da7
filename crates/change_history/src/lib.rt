//! The issues with their whole histories: what each was opened with, and every change since.
#![tactic(auto)]

mod change;
mod entry;
mod issue;
mod key;
mod places;
mod small;
mod span;

pub use change::{Change, Changes};
pub use entry::{Entries, Entry, Group};
pub use issue::Issue;
pub use key::{Key, project_of};
pub use small::Small;
pub use span::Span;
