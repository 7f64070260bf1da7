ghost use Rattle.std.specs.Prelude.{◌≡◌, ◌≤◌, List, ℕ, [], ◌∷◌, ◌++◌, length, ◌↔◌, IsTrue, IfOk, OnOk, OnErr, insert};

use crate::memory::Memory;
use crate::text::Text;
use std::alloc::Global;
use std::marker::Model;

/// A list of texts, which contracts see as the list of their bytes.
#[derive(Drop)]
pub struct Names {
    names: Vec<Text>,
}

impl Model for Names {
    ghost Value = { List (List ℕ) };

    ghost view = { λ n. n.names.items };
}

impl Names {
    /// The empty list.
    pub fn new(alloc: Global) -> Self
        ensures { result ≡ [] }
    {
        Names {
            names: Vec::new(alloc),
        }
    }

    /// The empty list, with room for n texts.
    pub fn with_capacity(alloc: Global, n: usize) -> Result<Self, Memory>
        ensures { IfOk result (λ names. names ≡ []) }
    {
        Ok(Names {
            names: Vec::with_capacity(alloc, n)?,
        })
    }

    /// Puts one more at the end, or leaves the list as it is.
    pub fn push(&mut self, name: Text) -> Result<(), Memory>
        ensures ok { OnOk result (self.new ≡ self.old ++ name ∷ []) }
        ensures err { OnErr result (self.new ≡ self.old) }
    {
        self.names.push(name)?;
        Ok(())
    }

    /// The texts in order, lent.
    pub fn as_slice(&self) -> &[Text]
        ensures { result.now ≡ self.now }
    {
        self.names.as_slice()
    }

    /// Puts one more at a place, or leaves the list as it is.
    pub fn insert(&mut self, place: usize, name: Text) -> Result<(), Memory>
        requires { place ≤ length self.old }
        ensures ok { OnOk result (self.new ≡ insert self.old place name) }
        ensures err { OnErr result (self.new ≡ self.old) }
    {
        self.names.insert(place, name)?;
        Ok(())
    }

    /// Another list of the same texts, without room for more.
    pub fn copy(&self, alloc: Global) -> Result<Self, Memory>
        ensures { IfOk result (λ names. names ≡ self.now) }
    {
        let mut names = Names::with_capacity(alloc, self.names.len())?;
        for name in self.as_slice() {
            names.push(name.copy(alloc)?)?;
        }
        Ok(names)
    }

    /// Whether both have the same texts in the same order.
    pub fn is_same(&self, other: &Names) -> bool
        ensures { IsTrue result ↔ (self.now ≡ other.now) }
    {
        is_same_list(self.as_slice(), other.as_slice())
    }
}

fn is_same_list(one: &[Text], other: &[Text]) -> bool
    ensures { IsTrue result ↔ (one.now ≡ other.now) }
{
    if one.len() != other.len() {
        return false;
    }
    for (place, name) in one.iter().enumerate() {
        if !name.is_same(&other[place]) {
            return false;
        }
    }
    true
}
