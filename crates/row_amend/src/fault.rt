/// Why rows were not amended. They are as before then.
#[derive(Clone, Copy, PartialEq, Eq)]
pub enum AmendFault {
    /// The keeper failed.
    Keeper,
    /// The row of this kind and number is the first that is none of a tracker's, or has to be there and isn't: among the rows as they
    /// are, or where these are a tracker's, as they would be.
    BadRow { kind: u8, no: u64 },
    Memory,
}
