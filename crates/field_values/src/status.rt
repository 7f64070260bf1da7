use crate::text::Text;
use crate::words::Category;

/// A status that an issue may have.
#[derive(Drop)]
pub struct Status {
    pub name: Text,
    pub category: Category,
}
