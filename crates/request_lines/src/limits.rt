/// The bytes that a line has at most, without its line feed.
pub const LINE_LIMIT: usize = 65_536;

/// The lines that a run takes at most, blank ones among them.
pub const LINES_LIMIT: usize = 1_000_000;
