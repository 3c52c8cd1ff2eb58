//! Numbers that rise by one, or are all the same.

ghost use Rattle.std.specs.Prelude.{◌≡◌, ◌+◌, ◌<◌, ◌^◌, ◌++◌, ◌∷◌, [], true, false, length, slice_get, IfSome};
ghost use Rattle.need_numbers.specs.Rows.{has};
ghost use Rattle.need_numbers.specs.Stretches.{run};

use std::marker::Model;

/// Numbers that rise by one, or are all the same, no more than 65,535. They take no more memory than two of them.
#[derive(Drop)]
pub(crate) struct Run {
    first: u32,
    count: u16,
    rising: bool,
}

impl Model for Run {
    ghost use Rattle.std.specs.Prelude.{ℕ, List, ◌+◌, ◌<◌, ◌^◌};
    ghost use Rattle.need_numbers.specs.Stretches.{run};

    ghost Value = { List ℕ };

    ghost view = { λ r. run r.first r.rising r.count };

    ghost invariant = { λ r. r.first + r.count < 2 ^ 32 };
}

/// How a run goes on with one number more: its first number, and whether it rises.
#[tactic(auto, using(crate::proofs::Runs::stayed_flat, crate::proofs::Runs::rose_up))]
fn prolonged(first: u32, rising: bool, count: u32, number: u32) -> Option<(u32, bool)>
    requires { first + count < 2 ^ 32 }
    ensures run { IfSome result (λ r. run r.0 r.1 (count + 1) ≡ run first rising count ++ number ∷ []) }
    ensures fits { IfSome result (λ r. r.0 + (count + 1) < 2 ^ 32) }
{
    if count == 0 && number < u32::MAX {
        return Some((number, false));
    }
    if count == 0 || first + count == u32::MAX {
        return None;
    }
    if number == first && (count == 1 || !rising) {
        return Some((first, false));
    }
    if number == first + count && (count == 1 || rising) {
        return Some((first, true));
    }
    None
}

/// Whether a run has a number.
#[tactic(auto, using(crate::proofs::Runs::rising_test, crate::proofs::Runs::rising_low, crate::proofs::Runs::flat_test))]
fn is_in_run(first: u32, rising: bool, count: u32, number: u32) -> bool
    requires { first + count < 2 ^ 32 }
    ensures { result ≡ has number (run first rising count) }
{
    if rising {
        first <= number && number < first + count
    } else {
        0 < count && number == first
    }
}

impl Run {
    /// No numbers.
    pub(crate) fn new() -> Run
        ensures { result ≡ [] }
    {
        Run {
            first: 0,
            count: 0,
            rising: false,
        }
    }

    /// Puts a number at the end, where the run goes on with it, and answers whether it does.
    pub(crate) fn push(&mut self, number: u32) -> bool
        ensures longer { result ≡ true → self.new ≡ self.old ++ number ∷ [] }
        ensures kept { result ≡ false → self.new ≡ self.old }
    {
        if self.count == u16::MAX {
            return false;
        }
        let count = self.count as u32;
        let Some((first, rising)) = prolonged(self.first, self.rising, count, number) else {
            return false;
        };
        self.first = first;
        self.rising = rising;
        self.count += 1;
        true
    }

    /// The number at a place; `None` if there is no such place.
    #[tactic(auto, using(crate::proofs::Runs::at_rising_place, crate::proofs::Runs::at_flat_place, crate::proofs::Runs::past_run))]
    pub(crate) fn get(&self, place: usize) -> Option<u32>
        ensures { result ≡ slice_get self.now place }
    {
        if self.count as usize <= place {
            return None;
        }
        if self.rising {
            return Some(self.first + place as u32);
        }
        Some(self.first)
    }

    /// Whether a number is among them.
    pub(crate) fn contains(&self, number: u32) -> bool
        ensures { result ≡ has number self.now }
    {
        is_in_run(self.first, self.rising, self.count as u32, number)
    }

    /// How many there are.
    #[tactic(auto, using(crate::proofs::Runs::run_length))]
    pub(crate) fn len(&self) -> usize
        ensures { result ≡ length self.now }
    {
        self.count as usize
    }
}
