use crate::names::Names;
use crate::numbers::FieldNo;
use crate::text::Text;
use crate::words::FieldKind;

/// A field of the setup's own. Where its kind is a choice, it has at least one option; else it has none.
pub struct Field {
    /// 10000 to 19999.
    pub number: FieldNo,
    pub name: Text,
    pub kind: FieldKind,
    pub options: Names,
}

// Written by hand, so that whoever lets one go makes one call, and its proof takes one step there.
impl Drop for Field {
    fn drop(self) {
        let Field {
            number: _,
            name: _,
            kind: _,
            options: _,
        } = self;
    }
}
