ghost use Rattle.std.specs.Prelude.{◌≡◌, option_map};
ghost use Rattle.setup_drafts.specs.declared.fault.SetupFault.{SetupFault};
ghost use Rattle.setup_drafts.specs.Faults.{IsUnlessMemory, fault_kind, name_of};

use field_values::memory::Memory;
use field_values::text::Text;
use std::alloc::Global;

/// Why a text is no setup: the first fault, where the checks are made in the order of the setup's keys.
pub enum SetupFault {
    /// The text isn't TOML.
    BadToml,
    /// A key that must be there isn't, or its list has too few entries.
    Missing(Text),
    /// The second of two names that are the same, or the second number, in digits.
    Duplicate(Text),
    /// A name that must be known and isn't, or a key that isn't the setup's.
    Unknown(Text),
    /// A list at this key has more entries than this, which is the most that it may have.
    TooMany(Text, usize),
    /// What stands at this key isn't what is wanted there, or this text is no rule.
    BadValue(Text),
    /// There was not enough memory.
    Memory,
}

// Written by hand, so that whoever lets one go makes one call, and its proof takes one step there.
impl Drop for SetupFault {
    fn drop(self) {
        match self {
            SetupFault::BadToml
            | SetupFault::Missing(_)
            | SetupFault::Duplicate(_)
            | SetupFault::Unknown(_)
            | SetupFault::TooMany(_, _)
            | SetupFault::BadValue(_)
            | SetupFault::Memory => {}
        }
    }
}

impl From<Memory> for SetupFault {
    ghost from_gives = { λ m f. f ≡ SetupFault.Memory };

    fn from(_: Memory) -> Self
        ensures { result ≡ SetupFault.Memory }
    {
        SetupFault::Memory
    }
}

impl SetupFault {
    /// 1 to 6 in the order of the variants; 0 for want of memory.
    pub fn kind(&self) -> u8
        ensures { result ≡ fault_kind self.now }
    {
        match self {
            SetupFault::BadToml => 1,
            SetupFault::Missing(_) => 2,
            SetupFault::Duplicate(_) => 3,
            SetupFault::Unknown(_) => 4,
            SetupFault::TooMany(_, _) => 5,
            SetupFault::BadValue(_) => 6,
            SetupFault::Memory => 0,
        }
    }

    /// The key, name or text that is told.
    pub fn name(&self) -> Option<&str>
        ensures { option_map (λ name. name.now) result ≡ name_of self.now }
    {
        match self {
            SetupFault::Missing(name)
            | SetupFault::Duplicate(name)
            | SetupFault::Unknown(name)
            | SetupFault::TooMany(name, _)
            | SetupFault::BadValue(name) => Some(name.as_str()),
            SetupFault::BadToml | SetupFault::Memory => None,
        }
    }

    /// The key is missing.
    pub fn missing(alloc: Global, key: &str) -> SetupFault
        ensures { IsUnlessMemory result (SetupFault.Missing key.now) }
    {
        match Text::copy_of(alloc, key) {
            Ok(key) => SetupFault::Missing(key),
            Err(_) => SetupFault::Memory,
        }
    }

    /// The second of two of that name.
    pub fn duplicate(alloc: Global, name: &str) -> SetupFault
        ensures { IsUnlessMemory result (SetupFault.Duplicate name.now) }
    {
        match Text::copy_of(alloc, name) {
            Ok(name) => SetupFault::Duplicate(name),
            Err(_) => SetupFault::Memory,
        }
    }

    /// The name isn't known.
    pub fn unknown(alloc: Global, name: &str) -> SetupFault
        ensures { IsUnlessMemory result (SetupFault.Unknown name.now) }
    {
        match Text::copy_of(alloc, name) {
            Ok(name) => SetupFault::Unknown(name),
            Err(_) => SetupFault::Memory,
        }
    }

    /// The list at the key has more than so many.
    pub fn too_many(alloc: Global, key: &str, most: usize) -> SetupFault
        ensures { IsUnlessMemory result (SetupFault.TooMany key.now most) }
    {
        match Text::copy_of(alloc, key) {
            Ok(key) => SetupFault::TooMany(key, most),
            Err(_) => SetupFault::Memory,
        }
    }

    /// The value at the key is bad, or the text is.
    pub fn bad_value(alloc: Global, key: &str) -> SetupFault
        ensures { IsUnlessMemory result (SetupFault.BadValue key.now) }
    {
        match Text::copy_of(alloc, key) {
            Ok(key) => SetupFault::BadValue(key),
            Err(_) => SetupFault::Memory,
        }
    }
}
