// A text of JSON on its way: `json`'s writer, of which contracts see the tokens so far.
ghost use Rattle.std.specs.Prelude.{◌≡◌, ◌∷◌, ◌++◌, [], true, IfOk, OnOk};
ghost use Rattle.json.specs.Token.{begin_object, end_object, begin_array, end_array, key};
ghost use Rattle.json.specs.Print.{print};
ghost use Rattle.serde_json.specs.Data.{null, string, boolean};
ghost use Rattle.civil_dates.specs.DateText.{date_text};
ghost use Rattle.civil_dates.specs.Days.{is_day};
ghost use Rattle.json_texts.specs.JsonData.{natural, integer, natural_or_null, text_or_null};
ghost use Rattle.field_forms.specs.TextLists.{texts_data};
ghost use Rattle.json_texts.specs.JsonTokens.{after};
ghost use Rattle.field_forms.specs.Numbers.{number_text};

use civil_dates::push_date_text;
use field_forms::number_text::{push_number_text, whole_in};
use field_values::memory::Memory;
use field_values::text::Text;
use itoa::Buffer;
use json::Writer;
use std::alloc::Global;
use std::marker::Model;

/// A text of JSON that is written a token at a time. It places the commas and the colons; that brackets match and
/// members have names is its caller's to see to.
#[derive(Drop)]
pub struct JsonText {
    writer: Writer,
    /// The text of the last day, or number that isn't whole, so that all of them take memory once.
    short: String,
}

impl Model for JsonText {
    ghost use Rattle.std.specs.Prelude.{◌≡◌, List, []};
    ghost use Rattle.json.specs.Token.{Token, tokens_code};

    ghost Value = { List Token };

    ghost coded = { tokens_code };

    ghost view = { λ t. t.writer.tokens };

    ghost invariant = { λ t. t.writer.before ≡ [] };
}

impl JsonText {
    /// Nothing is written, and there is room for so many bytes, of which no contract speaks.
    pub fn with_room(alloc: Global, room: usize) -> Result<Self, Memory>
        ensures { IfOk result (λ text. text ≡ []) }
    {
        let bytes = Vec::with_capacity(alloc, room)?;
        Ok(JsonText {
            writer: Writer::new(bytes),
            short: String::new(alloc),
        })
    }

    /// Nothing is written, and what will be goes into the room of these bytes, in place of them.
    pub fn in_room(alloc: Global, bytes: Vec<u8>) -> Self
        ensures { result ≡ [] }
    {
        let mut bytes = bytes;
        bytes.clear();
        JsonText {
            writer: Writer::new(bytes),
            short: String::new(alloc),
        }
    }

    /// The bytes that were written.
    pub fn into_bytes(self) -> Vec<u8>
        ensures { result.items ≡ print self }
    {
        let JsonText { writer, short: _ } = self;
        writer.into_inner()
    }

    /// The text that was written.
    pub fn into_text(self) -> Text
        ensures { result ≡ print self }
    {
        let JsonText { writer, short: _ } = self;
        // The writer promises UTF-8, which isn't looked at again: rows and replies are long.
        Text::of(unsafe { String::from_utf8_unchecked(writer.into_inner()) })
    }

    pub fn begin_object(&mut self) -> Result<(), Memory>
        ensures { OnOk result (self.new ≡ self.old ++ begin_object ∷ []) }
    {
        Ok(self.writer.begin_object()?)
    }

    pub fn end_object(&mut self) -> Result<(), Memory>
        ensures { OnOk result (self.new ≡ self.old ++ end_object ∷ []) }
    {
        Ok(self.writer.end_object()?)
    }

    pub fn begin_array(&mut self) -> Result<(), Memory>
        ensures { OnOk result (self.new ≡ self.old ++ begin_array ∷ []) }
    {
        Ok(self.writer.begin_array()?)
    }

    pub fn end_array(&mut self) -> Result<(), Memory>
        ensures { OnOk result (self.new ≡ self.old ++ end_array ∷ []) }
    {
        Ok(self.writer.end_array()?)
    }

    pub fn key(&mut self, name: &str) -> Result<(), Memory>
        ensures { OnOk result (self.new ≡ self.old ++ key name.now ∷ []) }
    {
        Ok(self.writer.key(name)?)
    }

    pub fn null(&mut self) -> Result<(), Memory>
        ensures { OnOk result (self.new ≡ after null self.old) }
    {
        Ok(self.writer.null()?)
    }

    pub fn boolean(&mut self, truth: bool) -> Result<(), Memory>
        ensures { OnOk result (self.new ≡ after (boolean truth) self.old) }
    {
        Ok(self.writer.boolean(truth)?)
    }

    pub fn text(&mut self, text: &str) -> Result<(), Memory>
        ensures { OnOk result (self.new ≡ after (string text.now) self.old) }
    {
        Ok(self.writer.string(text)?)
    }

    pub fn number(&mut self, number: u64) -> Result<(), Memory>
        ensures { OnOk result (self.new ≡ after (natural number) self.old) }
    {
        Ok(self.writer.u64(number)?)
    }

    #[tactic(auto, using(crate::proofs::JsonTexts::integer_text))]
    pub fn integer(&mut self, number: i64) -> Result<(), Memory>
        ensures { OnOk result (self.new ≡ after (integer number) self.old) }
    {
        Ok(self.writer.i64(number)?)
    }

    /// The shortest text of a number of thousandths.
    pub fn number_text(&mut self, number: i64) -> Result<(), Memory>
        ensures { OnOk result (self.new ≡ after (string (number_text number)) self.old) }
    {
        match whole_in(number) {
            Some(whole) => self.text(Buffer::new().format(whole)),
            None => self.any_number_text(number),
        }
    }

    // The same, where it may have a sign or a point.
    fn any_number_text(&mut self, number: i64) -> Result<(), Memory>
        ensures { OnOk result (self.new ≡ after (string (number_text number)) self.old) }
    {
        self.short.clear();
        push_number_text(&mut self.short, number)?;
        Ok(self.writer.string(self.short.as_str())?)
    }

    /// The text of a day.
    pub fn day_text(&mut self, day: i32) -> Result<(), Memory>
        requires { is_day day ≡ true }
        ensures { OnOk result (self.new ≡ after (string (date_text day)) self.old) }
    {
        self.short.clear();
        push_date_text(&mut self.short, day)?;
        Ok(self.writer.string(self.short.as_str())?)
    }

    pub fn number_or_null(&mut self, number: Option<u64>) -> Result<(), Memory>
        ensures { OnOk result (self.new ≡ after (natural_or_null number) self.old) }
    {
        match number {
            Some(number) => self.number(number),
            None => self.null(),
        }
    }

    pub fn text_or_null(&mut self, text: &Option<Text>) -> Result<(), Memory>
        ensures { OnOk result (self.new ≡ after (text_or_null text.now) self.old) }
    {
        match text {
            Some(text) => self.text(text.as_str()),
            None => self.null(),
        }
    }

    /// An array of texts.
    pub fn texts(&mut self, texts: &[Text]) -> Result<(), Memory>
        ensures { OnOk result (self.new ≡ after (texts_data texts.now) self.old) }
    {
        self.begin_array()?;
        for text in texts {
            self.text(text.as_str())?;
        }
        self.end_array()
    }

    pub fn text_member(&mut self, name: &str, text: &str) -> Result<(), Memory>
        ensures { OnOk result (self.new ≡ after (string text.now) (self.old ++ key name.now ∷ [])) }
    {
        self.key(name)?;
        self.text(text)
    }

    pub fn boolean_member(&mut self, name: &str, truth: bool) -> Result<(), Memory>
        ensures { OnOk result (self.new ≡ after (boolean truth) (self.old ++ key name.now ∷ [])) }
    {
        self.key(name)?;
        self.boolean(truth)
    }

    pub fn number_member(&mut self, name: &str, number: u64) -> Result<(), Memory>
        ensures { OnOk result (self.new ≡ after (natural number) (self.old ++ key name.now ∷ [])) }
    {
        self.key(name)?;
        self.number(number)
    }

    pub fn integer_member(&mut self, name: &str, number: i64) -> Result<(), Memory>
        ensures { OnOk result (self.new ≡ after (integer number) (self.old ++ key name.now ∷ [])) }
    {
        self.key(name)?;
        self.integer(number)
    }
}
