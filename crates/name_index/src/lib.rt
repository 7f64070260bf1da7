//! Lists of names in which a name is found by halving, ASCII case ignored.
#![tactic(auto)]

mod doubles;
mod folded;
mod indexed_names;
mod places;

pub use doubles::first_double;
pub use indexed_names::IndexedNames;
pub use places::Places;
