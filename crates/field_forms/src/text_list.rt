// Lists of texts as JSON arrays.
ghost use Rattle.std.specs.Prelude.{◌≡◌, IfOk};
ghost use Rattle.serde_json.specs.View.{view};
ghost use Rattle.field_forms.specs.TextLists.{texts_of, texts_in};

use field_values::memory::Memory;
use field_values::names::Names;
use field_values::text::Text;
use serde_json::Value;
use std::alloc::Global;

/// The texts of an array of texts; `None` where the value is none.
pub fn texts_of(alloc: Global, value: &Value) -> Result<Option<Names>, Memory>
    ensures { IfOk result (λ texts. texts ≡ texts_of (view value.now)) }
{
    let Some(items) = value.as_array() else {
        return Ok(None);
    };
    let mut texts = Names::new(alloc);
    for item in items {
        let Some(text) = item.as_str() else {
            return Ok(None);
        };
        texts.push(Text::copy_of(alloc, text)?)?;
    }
    Ok(Some(texts))
}

/// The texts of a JSON array of texts; `None` where the text is none.
#[tactic(auto, unfolding(crate::specs::TextLists::texts_in))]
pub fn texts_in(alloc: Global, text: &str) -> Result<Option<Names>, Memory>
    ensures { IfOk result (λ texts. texts ≡ texts_in text.now) }
{
    match Value::from_str(alloc, text) {
        Ok(value) => texts_of(alloc, &value),
        Err(e) => { if e.is_memory() { Err(Memory) } else { Ok(None) } }
    }
}
