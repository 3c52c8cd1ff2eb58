//! Items in groups, numbered through.

ghost use Rattle.std.specs.Prelude.{◌≡◌, ◌++◌, ◌∷◌, [], length, get_or, OnOk, OnErr};
ghost use Rattle.std.specs.List.{sum};
ghost use Rattle.need_numbers.specs.Groups.{place_of, start_of};

use std::alloc::{AllocError, Global};
use std::marker::Model;

/// Groups of items, seen as the numbers of items that they have. Items are numbered through, those of the first group first.
pub struct Groups {
    counts: Vec<u32>,
    starts: Vec<u32>,
    total: u32,
}

impl Drop for Groups {
    fn drop(self) {
        let Groups {
            counts: _,
            starts: _,
            total: _,
        } = self;
    }
}

impl Model for Groups {
    ghost use Rattle.std.specs.Prelude.{ℕ, List};
    ghost use Rattle.need_numbers.specs.Groups.{AreNumbered};

    ghost Value = { List ℕ };

    ghost view = { λ g. g.counts.items };

    ghost invariant = { λ g. AreNumbered g.counts.items g.starts.items g.total };
}

impl Groups {
    /// No groups.
    pub fn new(alloc: Global) -> Groups
        ensures { result ≡ [] }
    {
        Groups {
            counts: Vec::new(alloc),
            starts: Vec::new(alloc),
            total: 0,
        }
    }

    /// Puts a group with a number of items behind the others.
    ///
    /// # Errors
    ///
    /// There is no memory for it, or there would be 2^32 items or more.
    pub fn push(&mut self, count: u32) -> Result<(), AllocError>
        ensures grows { OnOk result (self.new ≡ self.old ++ count ∷ []) }
        ensures kept { OnErr result (self.new ≡ self.old) }
    {
        let Some(total) = self.total.checked_add(count) else {
            return Err(AllocError);
        };
        self.starts.push(self.total)?;
        let Ok(_) = self.counts.push(count) else {
            self.starts.pop();
            return Err(AllocError);
        };
        self.total = total;
        Ok(())
    }

    /// How many groups there are.
    pub fn len(&self) -> usize
        ensures { result ≡ length self.now }
    {
        self.counts.len()
    }

    /// How many items there are in all groups.
    pub fn total(&self) -> u32
        ensures { result ≡ sum self.now }
    {
        self.total
    }

    /// How many items a group has; 0 for an absent one.
    pub fn count(&self, group: usize) -> u32
        ensures { result ≡ get_or self.now group 0 }
    {
        match self.counts.get(group) {
            Some(count) => *count,
            None => 0,
        }
    }

    /// How many items there are in the groups before one.
    pub fn start(&self, group: usize) -> u32
        ensures { result ≡ start_of self.now group }
    {
        match self.starts.get(group) {
            Some(start) => *start,
            None => self.total,
        }
    }

    /// The number of an item by its place in its group; `None` if it is absent.
    pub fn place(&self, group: usize, item: u32) -> Option<u32>
        ensures { result ≡ place_of self.now group item }
    {
        if group < self.counts.len() && item < self.counts[group] {
            Some(self.starts[group] + item)
        } else {
            None
        }
    }
}
