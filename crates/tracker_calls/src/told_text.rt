ghost use Rattle.std.specs.Prelude.{◌≡◌, IfOk};

use arrayvec::ArrayString;
use field_values::{Memory, Text};
use std::alloc::Global;
use std::marker::Model;

// Keys, nearly all ranks, and most names and values have no more bytes.
const SHORT: usize = 32;

/// A text that a line or an answer tells. A copy of a short one lies in the call or the answer itself, so that it takes no memory.
/// Contracts see it as its bytes.
#[derive(Drop)]
pub struct ToldText {
    kept: KeptText,
}

/// Where the bytes of a text are.
pub(crate) enum KeptText {
    Here(ArrayString<SHORT>),
    Apart(Text),
}

// Written by hand, so that whoever lets one go makes one call, and its proof takes one step there.
impl Drop for KeptText {
    fn drop(self) {
        match self {
            KeptText::Here(_) | KeptText::Apart(_) => {}
        }
    }
}

impl Model for ToldText {
    ghost use Rattle.std.specs.Prelude.{List, ℕ};
    ghost use Rattle.tracker_calls.specs.ToldText.{kept_bytes};

    ghost Value = { List ℕ };

    ghost view = { λ t. kept_bytes t.kept };
}

impl ToldText {
    /// A text of the same bytes.
    pub fn copy_of(alloc: Global, text: &str) -> Result<Self, Memory>
        ensures { IfOk result (λ t. t ≡ text.now) }
    {
        match ArrayString::<SHORT>::from(text) {
            Ok(here) => Ok(ToldText {
                kept: KeptText::Here(here),
            }),
            Err(_) => Ok(ToldText::of(Text::copy_of(alloc, text)?)),
        }
    }

    /// That text, which stays where it is.
    pub fn of(text: Text) -> Self
        ensures { result ≡ text }
    {
        ToldText {
            kept: KeptText::Apart(text),
        }
    }

    /// The text, lent.
    pub fn as_str(&self) -> &str
        ensures { result.now ≡ self.now }
    {
        match &self.kept {
            KeptText::Here(here) => here.as_str(),
            KeptText::Apart(text) => text.as_str(),
        }
    }

    /// Another text of the same bytes.
    pub fn copy(&self, alloc: Global) -> Result<Self, Memory>
        ensures { IfOk result (λ t. t ≡ self.now) }
    {
        ToldText::copy_of(alloc, self.as_str())
    }
}
