// What a create comes to.

use change_history::Change;
use fields::ProjectNo;
use tracker_calls::Answer;

/// A new issue's project, and what its fields become.
#[derive(Drop)]
pub struct NewValues {
    pub project: ProjectNo,
    pub changes: Vec<Change>,
}

/// What a create comes to once its checks are made: an answer where its issue was created before,
/// and else a new issue.
#[derive(Drop)]
pub enum Due {
    Told(Answer),
    New(NewValues),
}
