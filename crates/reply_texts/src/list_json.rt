// The JSON of lists in replies.
ghost use Rattle.std.specs.Prelude.{◌≡◌, OnOk, map};
ghost use Rattle.serde_json.specs.Data.{Data, array};
ghost use Rattle.serde_json.specs.View.{items_of};
ghost use Rattle.json_texts.specs.JsonTokens.{after};

use field_values::Memory;
use json_texts::JsonText;

/// What a reply tells in a list.
pub(crate) trait Listed {
    /// As JSON.
    ghost as_data: { Self → Data };

    /// Writes it.
    fn write(&self, out: &mut JsonText) -> Result<(), Memory>
        ensures { OnOk result (out.new ≡ after (as_data self.now) out.old) };
}

/// Writes such things as an array.
pub(crate) fn write_list<T: Listed>(out: &mut JsonText, things: &[T]) -> Result<(), Memory>
    ensures { OnOk result (out.new ≡ after (array (items_of (map T.as_data things.now))) out.old) }
{
    out.begin_array()?;
    for thing in things {
        thing.write(out)?;
    }
    out.end_array()
}
