//! Names.

ghost use Rattle.std.specs.Prelude.{◌≡◌, ◌↔◌, List, ℕ, false, IsTrue, IfOk, OnOk};
ghost use Rattle.std.specs.Str.{bytes_eq};
ghost use Rattle.std.specs.Ordering.{nat_cmp};
ghost use Rattle.std.specs.Cmp.Lexicographic.{slice_cmp};
ghost use Rattle.base_names.specs.Names.{is_name, IsName};

use crate::is_name;
use std::alloc::{AllocError, Global};
use std::cmp::Ordering;
use std::fmt;
use std::marker::Model;
use thiserror::Error;

/// A word of 1 to 64 bytes that is not reserved, seen as the list of its bytes.
pub struct Name {
    word: Vec<u8>,
}

impl Drop for Name {
    fn drop(self) {
        let Name { word: _ } = self;
    }
}

impl Model for Name {
    ghost Value = { List ℕ };

    ghost view = { λ n. n.word.items };

    ghost invariant = { λ n. IsTrue (is_name n.word.items) };
}

/// Why there is no name of some bytes.
#[derive(Clone, Copy, Debug, Error)]
pub enum NameRefusal {
    /// The bytes are no name.
    #[error("not a name")]
    NotAName,
    /// There is no memory for it.
    #[error("out of memory")]
    NoMemory,
}

impl From<AllocError> for NameRefusal {
    ghost use Rattle.std.specs.Prelude.{◌≡◌};
    ghost use Rattle.base_names.specs.declared.name.NameRefusal.TheVariants.{NoMemory};

    ghost from_gives = { λ _ e. e ≡ NoMemory };

    fn from(_: AllocError) -> Self {
        NameRefusal::NoMemory
    }
}

impl Name {
    /// The name of bytes that are one, for a caller that has tested them.
    pub fn of(alloc: Global, word: &[u8]) -> Result<Name, AllocError>
        requires { IsName word.now }
        ensures { IfOk result (λ n. n ≡ word.now) }
    {
        let word = word.to_vec(alloc)?;
        Ok(Name { word })
    }

    /// The name of these bytes.
    pub fn new(alloc: Global, word: &[u8]) -> Result<Name, NameRefusal>
        ensures same { IfOk result (λ n. n ≡ word.now) }
        ensures is_name { OnOk result (IsName word.now) }
        ensures not_a_name { (result ≡ Err NameRefusal.NotAName) ↔ (is_name word.now ≡ false) }
    {
        if !is_name(word) {
            return Err(NameRefusal::NotAName);
        }
        let word = word.to_vec(alloc)?;
        Ok(Name { word })
    }

    /// The bytes of the name.
    pub fn as_slice(&self) -> &[u8]
        ensures same { result.now ≡ self.now }
        ensures is_name { IsName self.now }
    {
        self.word.as_slice()
    }

    /// The allocator that the name's bytes are from.
    pub fn allocator(&self) -> Global {
        *self.word.allocator()
    }

    /// How a name stands to another in the order of their bytes.
    pub fn order(&self, other: &Name) -> Ordering
        ensures { result ≡ slice_cmp nat_cmp self.now other.now }
    {
        self.word.as_slice().cmp(other.word.as_slice())
    }

    /// Whether two names have the same bytes.
    pub fn same(&self, other: &Name) -> bool
        ensures { result ≡ bytes_eq self.now other.now }
    {
        self.word.as_slice() == other.word.as_slice()
    }
}

impl Clone for Name {
    ghost is_clone = { λ x y. y ≡ x };

    fn clone(&self) -> Result<Self, AllocError> {
        let word = self.word.clone()?;
        Ok(Name { word })
    }
}

impl fmt::Display for Name {
    fn fmt<W: fmt::Write>(&self, f: &mut fmt::Formatter<W>) -> fmt::Result {
        for byte in self.word.as_slice() {
            f.write_char(char::from(*byte))?;
        }
        Ok(())
    }
}

impl fmt::Debug for Name {
    fn fmt<W: fmt::Write>(&self, f: &mut fmt::Formatter<W>) -> fmt::Result {
        write!(f, "\"{self}\"")
    }
}
