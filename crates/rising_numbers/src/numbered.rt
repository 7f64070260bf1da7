//! Things that have a number.
ghost use Rattle.std.specs.Prelude.{◌≡◌, ℕ};

/// A thing that has a number.
pub trait Numbered {
    ghost number: { Self → ℕ };

    /// Its number.
    fn number(&self) -> u32
        ensures { result ≡ number self.now };
}
