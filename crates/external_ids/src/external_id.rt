//! One external id.
ghost use Rattle.external_ids.specs.Ids.{external_number};

use field_values::{IssueNo, Text};
use rising_numbers::Numbered;

/// What an issue is called where it came from, as the number of the issue in the tracker that it was imported from.
#[derive(Drop)]
pub struct ExternalId {
    pub no: IssueNo,
    pub id: Text,
}

impl Numbered for ExternalId {
    ghost number = { external_number };

    fn number(&self) -> u32 {
        self.no.0
    }
}
