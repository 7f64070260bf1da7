ghost use Rattle.std.specs.Prelude.{◌≡◌, ◌∷◌, ◌++◌, IfOk, decimal};
ghost use Rattle.change_history.specs.Key.{project_of};

use arrayvec::ArrayString;
use field_values::{Memory, Text};
use std::alloc::Global;
use std::marker::Model;

// Nearly all keys have no more bytes.
const SHORT: usize = 16;

/// An issue's key, as `OPS-7`: the project's key, a hyphen and the project's number of the issue. A short one lies in the issue
/// itself, so that no other memory is waited for. Contracts see it as its bytes.
#[derive(Drop)]
pub struct Key {
    kept: KeptKey,
}

/// Where the bytes of a key are.
pub(crate) enum KeptKey {
    Here(ArrayString<SHORT>),
    Apart(Text),
}

// Written by hand, so that whoever lets one go makes one call, and its proof takes one step there.
impl Drop for KeptKey {
    fn drop(self) {
        match self {
            KeptKey::Here(_) | KeptKey::Apart(_) => {}
        }
    }
}

impl Model for Key {
    ghost use Rattle.std.specs.Prelude.{List, ℕ};
    ghost use Rattle.change_history.specs.Key.{kept_bytes};

    ghost Value = { List ℕ };

    ghost view = { λ k. kept_bytes k.kept };
}

impl Key {
    /// The key of the project's issue of that number.
    pub fn of(alloc: Global, project: &str, number: u32) -> Result<Self, Memory>
        ensures { IfOk result (λ key. key ≡ project.now ++ 45 ∷ decimal number) }
    {
        let text = Text::of(format!(in alloc; "{project}-{number}")?);
        match ArrayString::<SHORT>::from(text.as_str()) {
            Ok(here) => Ok(Key {
                kept: KeptKey::Here(here),
            }),
            Err(_) => Ok(Key {
                kept: KeptKey::Apart(text),
            }),
        }
    }

    /// The key's text, lent.
    pub fn as_str(&self) -> &str
        ensures { result.now ≡ self.now }
    {
        match &self.kept {
            KeptKey::Here(here) => here.as_str(),
            KeptKey::Apart(text) => text.as_str(),
        }
    }

    /// Another key of the same text.
    pub fn copy(&self, alloc: Global) -> Result<Self, Memory>
        ensures { IfOk result (λ key. key ≡ self.now) }
    {
        match ArrayString::<SHORT>::from(self.as_str()) {
            Ok(here) => Ok(Key {
                kept: KeptKey::Here(here),
            }),
            Err(_) => Ok(Key {
                kept: KeptKey::Apart(Text::copy_of(alloc, self.as_str())?),
            }),
        }
    }
}

/// The key of the project, which stands before the hyphen of the issue's.
#[tactic(auto, using(std::proofs::lemmas::Str::Pattern::split_once_first))]
pub fn project_of(key: &str) -> &str
    ensures { result.now ≡ project_of key.now }
{
    match key.split_once('-') {
        Some((project, _)) => project,
        None => key,
    }
}
