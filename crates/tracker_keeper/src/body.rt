// The text of a row in memory, whose room can be used again.
ghost use Rattle.std.specs.Prelude.{◌≡◌, [], List, ℕ, string_bytes, IfOk, OnOk};

use field_values::{Memory, Text};
use std::alloc::Global;
use std::marker::Model;
use std::mem;

/// The text of a row in memory, which contracts see as the bytes of its UTF-8.
#[derive(Drop)]
pub(crate) struct Body {
    string: String,
}

impl Model for Body {
    ghost Value = { List ℕ };

    ghost view = { λ b. string_bytes b.string };
}

impl Body {
    /// No text, and no room.
    pub(crate) fn new(alloc: Global) -> Body
        ensures { result ≡ [] }
    {
        Body {
            string: String::new(alloc),
        }
    }

    /// A body of the same bytes, which has just the room that it needs.
    fn copy_of(alloc: Global, text: &Text) -> Result<Body, Memory>
        ensures { IfOk result (λ body. body ≡ text.now) }
    {
        let string = String::from_str(alloc, text.as_str())?;
        Ok(Body { string })
    }

    /// For how many bytes it has room.
    pub(crate) fn room(&self) -> usize {
        self.string.capacity()
    }

    // Whether it has room for so many bytes, and not for more than twice as many: a row may stay for good.
    fn suits(&self, len: usize) -> bool {
        let room = self.room();
        len <= room && room - len <= len
    }

    // Becomes a text of the same bytes. It takes memory only where its room isn't enough.
    fn refill(&mut self, text: &Text) -> Result<(), Memory>
        ensures { OnOk result (self.new ≡ text.now) }
    {
        self.string.clear();
        self.string.push_str(text.as_str())?;
        Ok(())
    }

    /// A body of the same bytes, in this one's room where that suits them, and then nothing is left here; else in room of its own.
    pub(crate) fn reused_for(&mut self, alloc: Global, text: &Text) -> Result<Body, Memory>
        ensures { IfOk result (λ body. body ≡ text.now) }
    {
        if !self.suits(text.as_str().len()) {
            return Body::copy_of(alloc, text);
        }
        let mut body = mem::replace(self, Body::new(alloc));
        body.refill(text)?;
        Ok(body)
    }

    /// A text of the same bytes.
    pub(crate) fn text(&self, alloc: Global) -> Result<Text, Memory>
        ensures { IfOk result (λ text. text ≡ self.now) }
    {
        Text::copy_of(alloc, self.string.as_str())
    }
}
