//! Vectors that contracts see as lists.
#![tactic(auto)]

ghost use Rattle.std.specs.Prelude.{◌≡◌, ◌==◌, List, length};

use std::alloc::Global;
use std::marker::Model;

/// A vector that contracts see, and compare, as the list of its items.
///
/// A `Vec` in a field would be compared with its capacity; a field of this type is the list alone.
#[derive(Drop)]
pub struct ListVec<T> {
    items: Vec<T>,
}

impl<T> Model for ListVec<T> {
    ghost Value = { List T };

    ghost view = { λ s. s.items.items };
}

impl<T> ListVec<T> {
    /// The list of a vector's items. Takes no memory.
    pub fn new(items: Vec<T>) -> Self
        ensures { result ≡ items.items }
    {
        ListVec { items }
    }

    /// The items, lent as a slice.
    pub fn as_slice(&self) -> &[T]
        ensures { result.now ≡ self.now }
    {
        self.items.as_slice()
    }

    /// Where the items lie.
    pub fn allocator(&self) -> Global {
        *self.items.allocator()
    }

    /// The number of items.
    pub fn len(&self) -> usize
        ensures { result ≡ length self.now }
    {
        self.items.len()
    }

    /// Whether there is no item.
    pub fn is_empty(&self) -> bool
        ensures { result ≡ (length self.now == 0) }
    {
        self.items.is_empty()
    }

    /// The vector of the items. Takes no memory.
    pub fn into_vec(self) -> Vec<T>
        ensures { result.items ≡ self }
    {
        let ListVec { items } = self;
        items
    }
}
