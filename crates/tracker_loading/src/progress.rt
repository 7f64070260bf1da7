//! How far the rows behind the first two have been read, and which row has to be read next.
ghost use Rattle.std.specs.Prelude.{◌≡◌, length, nat_lt};
ghost use Rattle.tracker_rows.specs.Gathered.{due, members_due, rank_due};
ghost use Rattle.tracker_loading.specs.Reading.{gathered_in};

use crate::kinds::{MEMBERS, RANK};
use crate::making::Making;
use tracker_keeper::Format;

/// What the rows that were read have told.
#[derive(Drop)]
pub(crate) struct Progress {
    pub(crate) format: Format,
    /// How many groups have told their members.
    pub(crate) told: usize,
    pub(crate) made: Making,
}

impl Making {
    // The kind and the number of the row of the next rank; `None` where each issue has its rank.
    fn rank_due(&self) -> Option<(u8, u64)>
        ensures { result ≡ rank_due (nat_lt (length self.now.order) (length self.now.histories))
            (length self.now.order) }
    {
        let ranked = self.ranks.as_slice().len();
        if ranked < self.issues.len() {
            Some((RANK, ranked as u64 + 1))
        } else {
            None
        }
    }

    // How many groups there are.
    fn group_count(&self) -> usize
        ensures { result ≡ length self.now.setup.group }
    {
        self.setup.group.as_slice().len()
    }
}

impl Progress {
    // The kind and the number of the row of the members of the next group, in rows of the second format; `None` where each group
    // has told them.
    fn members_due(&self) -> Option<(u8, u64)>
        ensures { result ≡ members_due self.now.format self.now.told self.now.made.setup.group }
    {
        match self.format {
            Format::First => None,
            Format::Second => {
                if self.told < self.made.group_count() {
                    Some((MEMBERS, self.told as u64 + 1))
                } else {
                    None
                }
            }
        }
    }

    /// The kind and the number of the row that has to be read next; `None` where none has to be.
    pub(crate) fn due(&self) -> Option<(u8, u64)>
        ensures { result ≡ due (gathered_in self.now) }
    {
        match self.made.rank_due() {
            Some(row) => Some(row),
            None => self.members_due(),
        }
    }
}
