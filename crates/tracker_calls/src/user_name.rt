ghost use Rattle.std.specs.Prelude.{◌≡◌, IfOk};

use crate::told_text::ToldText;
use field_values::Memory;
use std::alloc::Global;
use std::marker::Model;

/// The name of who makes a call, as the line gives it. Contracts see it as its bytes.
#[derive(Drop)]
pub struct UserName {
    name: ToldText,
}

impl Model for UserName {
    ghost use Rattle.std.specs.Prelude.{List, ℕ};

    ghost Value = { List ℕ };

    ghost view = { λ u. u.name };
}

impl UserName {
    /// That name.
    pub fn copy_of(alloc: Global, name: &str) -> Result<Self, Memory>
        ensures { IfOk result (λ user. user ≡ name.now) }
    {
        let name = ToldText::copy_of(alloc, name)?;
        Ok(UserName { name })
    }

    /// The name that the text is.
    pub fn of(name: ToldText) -> Self
        ensures { result ≡ name }
    {
        UserName { name }
    }

    /// The name, lent.
    pub fn as_str(&self) -> &str
        ensures { result.now ≡ self.now }
    {
        self.name.as_str()
    }

    /// Another of the same name.
    pub fn copy(&self, alloc: Global) -> Result<Self, Memory>
        ensures { IfOk result (λ user. user ≡ self.now) }
    {
        UserName::copy_of(alloc, self.as_str())
    }
}
