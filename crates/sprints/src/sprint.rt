//! One sprint.

use crate::state::SprintState;
use field_values::Text;

/// A sprint: what it is called, and its state.
#[derive(Drop)]
pub struct Sprint {
    pub name: Text,
    pub state: SprintState,
}
