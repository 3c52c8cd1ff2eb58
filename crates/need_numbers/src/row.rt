//! One list without repeats.

ghost use Rattle.std.specs.Prelude.{◌≡◌, ◌++◌, ◌∷◌, [], not, slice_get, IfOk, OnOk, OnErr};
ghost use Rattle.need_numbers.specs.Rows.{has, put};
ghost use Rattle.need_numbers.specs.Stretches.{AreBitsOf};

use crate::bits::{bits_of, has_bit, make_room, set_bit};
use crate::numbers::Numbers;
use std::alloc::{AllocError, Global};
use std::marker::Model;

/// A list without repeats. Where it is long, each of its numbers has a bit.
pub(crate) struct Row {
    alloc: Global,
    numbers: Numbers,
    words: Vec<u64>,
    count: u32,
}

impl Drop for Row {
    fn drop(self) {
        let Row {
            alloc: _,
            numbers: _,
            words: _,
            count: _,
        } = self;
    }
}

impl Model for Row {
    ghost use Rattle.std.specs.Prelude.{ℕ, List};
    ghost use Rattle.need_numbers.specs.Stretches.{AreMarked};

    ghost Value = { List ℕ };

    ghost view = { λ r. r.numbers };

    ghost invariant = { λ r. AreMarked r.numbers r.words.items };
}

/// Puts a number at the end, and sets its bit.
fn push_marked(numbers: &mut Numbers, words: &mut Vec<u64>, number: u32) -> Result<(), AllocError>
    requires { AreBitsOf numbers.old words.old.items }
    ensures pushed { OnOk result (numbers.new ≡ numbers.old ++ number ∷ []) }
    ensures kept { OnErr result (numbers.new ≡ numbers.old) }
    ensures bits { AreBitsOf numbers.new words.new.items }
{
    make_room(words, number)?;
    numbers.push(number)?;
    set_bit(words, number);
    Ok(())
}

impl Row {
    /// No numbers.
    pub(crate) fn new(alloc: Global) -> Row
        ensures { result ≡ [] }
    {
        Row {
            alloc,
            numbers: Numbers::new(alloc),
            words: Vec::new(alloc),
            count: 0,
        }
    }

    /// Whether a number is in the list.
    pub(crate) fn contains(&self, number: u32) -> bool
        ensures { result ≡ has number self.now }
    {
        if self.words.is_empty() {
            self.numbers.contains(number)
        } else {
            has_bit(self.words.as_slice(), number)
        }
    }

    /// Puts a number that is not in the list at its end. Bits are made as soon as they take no more than 32 bytes for each number.
    fn push(&mut self, number: u32) -> Result<(), AllocError>
        ensures pushed { OnOk result (self.new ≡ self.old ++ number ∷ []) }
        ensures kept { OnErr result (self.new ≡ self.old) }
    {
        self.count = self.count.saturating_add(1);
        if self.words.is_empty() {
            if self.count <= 16 + number / 256 {
                return self.numbers.push(number);
            }
            self.words = bits_of(self.alloc, &self.numbers)?;
        }
        push_marked(&mut self.numbers, &mut self.words, number)
    }

    /// Puts a number at the end of the list that does not have it, and answers whether it is new.
    pub(crate) fn add(&mut self, number: u32) -> Result<bool, AllocError>
        ensures is_new { IfOk result (λ new. new ≡ not (has number self.old)) }
        ensures added { OnOk result (self.new ≡ put self.old number) }
        ensures kept { OnErr result (self.new ≡ self.old) }
    {
        if self.contains(number) {
            return Ok(false);
        }
        self.push(number)?;
        Ok(true)
    }

    /// The number at a place; `None` if the list has no such place.
    pub(crate) fn get(&self, place: usize) -> Option<u32>
        ensures { result ≡ slice_get self.now place }
    {
        self.numbers.get(place)
    }
}
