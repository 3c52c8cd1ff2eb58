//! Numbers in the order in which they came.

ghost use Rattle.std.specs.Prelude.{◌≡◌, ◌++◌, ◌∷◌, [], slice_get, OnOk, OnErr};
ghost use Rattle.need_numbers.specs.Rows.{has};

use crate::stretch::Stretch;
use std::alloc::{AllocError, Global};
use std::marker::Model;

/// A list of numbers, in stretches of 256. Where eight and more follow one another they take less than two bytes each.
pub struct Numbers {
    alloc: Global,
    stretches: Vec<Stretch>,
}

impl Drop for Numbers {
    fn drop(self) {
        let Numbers {
            alloc: _,
            stretches: _,
        } = self;
    }
}

impl Model for Numbers {
    ghost use Rattle.std.specs.Prelude.{ℕ, List};
    ghost use Rattle.need_numbers.specs.Stretches.{joined, AreCut};

    ghost Value = { List ℕ };

    ghost view = { λ n. joined n.stretches.items };

    ghost invariant = { λ n. AreCut n.stretches.items };
}

impl Numbers {
    /// No numbers.
    pub fn new(alloc: Global) -> Numbers
        ensures { result ≡ [] }
    {
        Numbers {
            alloc,
            stretches: Vec::new(alloc),
        }
    }

    /// Takes all numbers out.
    #[tactic(auto, using(crate::proofs::Cuts::none_cut))]
    pub fn clear(&mut self)
        ensures { self.new ≡ [] }
    {
        self.stretches.clear();
    }

    /// Puts a number at the end.
    ///
    /// # Errors
    ///
    /// There is no memory for it. Then the numbers are as they were.
    pub fn push(&mut self, number: u32) -> Result<(), AllocError>
        ensures pushed { OnOk result (self.new ≡ self.old ++ number ∷ []) }
        ensures kept { OnErr result (self.new ≡ self.old) }
    {
        let count = self.stretches.len();
        if count == 0 || self.stretches[count - 1].len() == 256 {
            let mut next = Stretch::new(self.alloc);
            next.push(number)?;
            self.stretches.push(next)?;
            return Ok(());
        }
        self.stretches[count - 1].push(number)
    }

    /// The number at a place; `None` if there is no such place.
    #[tactic(auto, using(crate::proofs::Cuts::placed, crate::proofs::Cuts::none_there))]
    pub fn get(&self, place: usize) -> Option<u32>
        ensures { result ≡ slice_get self.now place }
    {
        if place / 256 < self.stretches.len() {
            self.stretches[place / 256].get(place % 256)
        } else {
            None
        }
    }

    /// Whether a number is among them.
    #[tactic(auto, using(crate::proofs::Cuts::cut_rules))]
    pub fn contains(&self, number: u32) -> bool
        ensures { result ≡ has number self.now }
    {
        for place in 0..self.stretches.len() {
            if self.stretches[place].contains(number) {
                return true;
            }
        }
        false
    }
}
