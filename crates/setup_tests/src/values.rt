// Setups and the spelling of values by them.
use field_values::numbers::FieldNo;
use field_values::value::Value;
use fields::Setup;
use std::alloc::Global;

/// The setup that the text is. In a box it is let go by one call, which spares the proof of each test a look at all its parts.
pub(crate) fn setup_of(alloc: Global, text: &str) -> Option<Box<Setup>> {
    match Setup::read(alloc, text.as_bytes()) {
        Ok(setup) => Box::new(alloc, setup).ok(),
        Err(_) => None,
    }
}

/// Whether the field may hold the value, whose text is that one; the value Empty has the empty text here.
pub(crate) fn is_spelled(
    alloc: Global,
    setup: &Setup,
    field: FieldNo,
    value: &Value,
    wanted: &str,
) -> bool {
    match *value {
        Value::Empty => wanted.is_empty(),
        _ if setup.fits(field, value) => match setup.text_of(alloc, field, value) {
            Ok(text) => text.as_str() == wanted,
            Err(_) => false,
        },
        _ => false,
    }
}
