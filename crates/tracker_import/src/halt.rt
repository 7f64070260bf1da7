/// Why a text isn't written whole.
#[derive(Clone, Copy, PartialEq, Eq)]
pub enum Halt {
    /// The sink failed.
    Write,

    /// There was not enough memory for the text.
    Memory,
}
