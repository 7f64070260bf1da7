//! What issues are called where they came from.
#![tactic(auto)]

mod external_id;
mod form;
mod ids;

pub use external_id::ExternalId;
pub use form::is_external;
pub use ids::ExternalIds;
