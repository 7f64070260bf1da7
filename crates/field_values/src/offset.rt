use crate::moment::Moment;

/// From a moment on, local time is that many minutes ahead of UTC.
#[derive(Drop)]
pub struct Offset {
    pub from: Moment,
    /// -840 to 840.
    pub minutes: i32,
}
