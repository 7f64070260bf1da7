// Members that are taken out of a line's object, so that no text is copied.
ghost use Rattle.std.specs.Prelude.{◌≡◌, codes, option_map};
ghost use Rattle.serde_json.specs.Find.{as_str, get_member};
ghost use Rattle.serde_json.specs.View.{view, members_view};
ghost use Rattle.call_lines.specs.Taken.{object_of, text_in, without};

use field_values::Text;
use serde_json::{Map, Value};
use std::alloc::Global;
use tracker_calls::{ToldText, UserName};

/// Takes the member of that name out.
pub fn take(members: &mut Map<String, Value>, name: &str) -> Option<Value>
    ensures value { option_map view result
        ≡ get_member name.now (members_view members.old.entries) }
    ensures left { members_view members.new.entries
        ≡ without name.now (members_view members.old.entries) }
{
    members.remove(name)
}

/// The text that a value is.
pub fn text_of(value: Value) -> Option<Text>
    ensures { result ≡ as_str (view value) }
{
    match value {
        Value::String(text) => Some(Text::of(text)),
        _ => None,
    }
}

/// Takes the text of that name out; the empty one where there is none.
pub fn take_text(alloc: Global, members: &mut Map<String, Value>, name: &str) -> Text
    ensures text { result ≡ text_in name.now (object_of members.old) }
    ensures left { members_view members.new.entries
        ≡ without name.now (members_view members.old.entries) }
{
    match take(members, name).and_then(text_of) {
        Some(text) => text,
        None => Text::of(String::new(alloc)),
    }
}

/// The same, as a text that a call tells.
pub fn take_told(alloc: Global, members: &mut Map<String, Value>, name: &str) -> ToldText
    ensures text { result ≡ text_in name.now (object_of members.old) }
    ensures left { members_view members.new.entries
        ≡ without name.now (members_view members.old.entries) }
{
    ToldText::of(take_text(alloc, members, name))
}

/// Takes the name of who asks out.
pub fn take_user(alloc: Global, members: &mut Map<String, Value>) -> UserName
    ensures { result ≡ text_in (codes "user") (object_of members.old) }
{
    UserName::of(take_told(alloc, members, "user"))
}
