/// One call in a history: who made it, what was asked, and what was answered.
#[derive(Drop)]
pub struct Entry<A, T> {
    /// The caller's number. The first pass of a turn has 0, the passes split from it 1, 2 and so on.
    pub by: u32,
    pub ask: A,
    pub told: T,
}
