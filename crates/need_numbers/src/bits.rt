//! Numbers as bits, in words of 64.

ghost use Rattle.std.specs.Prelude.{◌≡◌, ◌||◌, ◌+◌, ◌/◌, ◌%◌, ◌^◌, ◌<◌, ℕ, length, nat_eq, get_or, IfOk, OnOk};
ghost use Rattle.need_numbers.specs.Stretches.{bit_in, AreBitsOf};

use crate::numbers::Numbers;
use std::alloc::{AllocError, Global};

/// The bits from a number's on, to the end of its word.
fn rest_of(words: &[u64], number: u32) -> u64
    ensures { result ≡ get_or words.now (number / 64) 0 / 2 ^ (number % 64) }
{
    match words.get((number / 64) as usize) {
        Some(word) => *word >> (number % 64),
        None => 0,
    }
}

/// Whether the bit of a number is set.
pub(crate) fn has_bit(words: &[u64], number: u32) -> bool
    ensures { result ≡ bit_in words.now number }
{
    rest_of(words, number) & 1 == 1
}

/// Makes room for the bit of a number.
pub(crate) fn make_room(words: &mut Vec<u64>, number: u32) -> Result<(), AllocError>
    ensures room { OnOk result (number / 64 < length words.new.items) }
    ensures same { (k : ℕ) → bit_in words.new.items k ≡ bit_in words.old.items k }
{
    let place = (number / 64) as usize;
    if words.len() <= place {
        words.resize(place + 1, 0)?;
    }
    Ok(())
}

/// Sets the bit of a number.
pub(crate) fn set_bit(words: &mut Vec<u64>, number: u32)
    requires { number / 64 < length words.old.items }
    ensures { (k : ℕ) → bit_in words.new.items k ≡ (nat_eq k number || bit_in words.old.items k) }
{
    words[(number / 64) as usize] |= 1 << (number % 64);
}

/// The place behind one.
pub(crate) fn after(place: u32) -> Result<u32, AllocError>
    ensures { IfOk result (λ n. n ≡ place + 1) }
{
    match place.checked_add(1) {
        Some(next) => Ok(next),
        None => Err(AllocError),
    }
}

/// The bits of the numbers of a list.
pub(crate) fn bits_of(alloc: Global, numbers: &Numbers) -> Result<Vec<u64>, AllocError>
    ensures { IfOk result (λ words. AreBitsOf numbers.now words.items) }
{
    let mut words = Vec::new(alloc);
    let mut place: u32 = 0;
    while let Some(number) = numbers.get(place as usize) {
        make_room(&mut words, number)?;
        set_bit(&mut words, number);
        place = after(place)?;
    }
    Ok(words)
}
