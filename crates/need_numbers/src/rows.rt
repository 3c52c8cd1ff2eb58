//! Lists without repeats, of which each says at once whether it has an item.

ghost use Rattle.std.specs.Prelude.{◌≡◌, ◌<◌, [], length, not, replicate, slice_get, IfOk, OnOk, OnErr};
ghost use Rattle.need_numbers.specs.Rows.{has, row, added};

use crate::bits::after;
use crate::row::Row;
use std::alloc::{AllocError, Global};
use std::marker::Model;

/// Lists of numbers without repeats, by the numbers of the lists. An item of a long list is found by its bit.
pub struct Rows {
    rows: Vec<Row>,
}

impl Drop for Rows {
    fn drop(self) {
        let Rows { rows: _ } = self;
    }
}

impl Model for Rows {
    ghost use Rattle.need_numbers.specs.Rows.{Lists};

    ghost Value = { Lists };

    ghost view = { λ r. r.rows.items };
}

impl Rows {
    /// `count` empty lists.
    ///
    /// # Errors
    ///
    /// There is no memory for them.
    pub fn new(alloc: Global, count: u32) -> Result<Rows, AllocError>
        ensures { IfOk result (λ r. r ≡ replicate count []) }
    {
        let mut rows = Vec::new(alloc);
        for _ in 0..count {
            rows.push(Row::new(alloc))?;
        }
        Ok(Rows { rows })
    }

    /// Puts an item at the end of a list that does not have it, and answers whether it is new.
    ///
    /// # Errors
    ///
    /// There is no memory for it. Then the lists are as they were.
    pub fn add(&mut self, list: u32, item: u32) -> Result<bool, AllocError>
        requires { list < length self.old }
        ensures is_new { IfOk result (λ new. new ≡ not (has item (row self.old list))) }
        ensures added { OnOk result (self.new ≡ added self.old list item) }
        ensures kept { OnErr result (self.new ≡ self.old) }
    {
        self.rows[list as usize].add(item)
    }

    /// The item at a place of a list; `None` if the list has no such place.
    pub fn get(&self, list: u32, place: u32) -> Option<u32>
        requires { list < length self.now }
        ensures { result ≡ slice_get (row self.now list) place }
    {
        self.rows[list as usize].get(place as usize)
    }

    /// Whether a list has an item.
    pub fn contains(&self, list: u32, item: u32) -> bool
        requires { list < length self.now }
        ensures { result ≡ has item (row self.now list) }
    {
        self.rows[list as usize].contains(item)
    }

    /// The items of a list.
    ///
    /// # Errors
    ///
    /// There is no memory for them, or there are 2^32 or more.
    pub fn items(&self, alloc: Global, list: usize) -> Result<Vec<u32>, AllocError>
        requires { list < length self.now }
        ensures { IfOk result (λ items. items.items ≡ row self.now list) }
    {
        let mut items = Vec::new(alloc);
        let mut place: u32 = 0;
        while let Some(item) = self.rows[list].get(place as usize) {
            items.push(item)?;
            place = after(place)?;
        }
        Ok(items)
    }

    /// How many lists there are.
    pub fn len(&self) -> usize
        ensures { result ≡ length self.now }
    {
        self.rows.len()
    }
}
