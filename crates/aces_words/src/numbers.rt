//! Numbers among the words.

ghost use Rattle.std.specs.Prelude.{◌≡◌, ◌↔◌, ◌^◌, ◌<◌, ◌≤◌, ℕ, length, get_or, IsTrue, IfSome, IfNone};
ghost use Rattle.std.specs.Fmt.{decimal};
ghost use Rattle.aces_words.specs.Requests.{address_of, value_of};

use base_numerals::{Numeral, read_numeral};

/// The number below 2^32 whose decimal digits these are, without a leading zero.
pub(crate) fn number(word: &str) -> Option<u32>
    ensures number { IfSome result (λ n. decimal n ≡ word.now) }
    ensures fits { IfSome result (λ n. n < 2 ^ 32) }
    ensures none { IfNone result ((n : ℕ) → n < 2 ^ 32 → decimal n ≡ word.now → ⊥) }
{
    let Ok(number) = word.parse::<u32>() else {
        return None;
    };
    if spells(word.as_bytes(), number) {
        Some(number)
    } else {
        None
    }
}

/// The number from 1 to 200 whose decimal digits these are, without a leading zero: the size of what is made for a test.
pub(crate) fn test_size(word: &str) -> Option<u32>
    ensures size { IfSome result (λ n. decimal n ≡ word.now) }
    ensures least { IfSome result (λ n. 1 ≤ n) }
    ensures most { IfSome result (λ n. n ≤ 200) }
    ensures none { IfNone result ((n : ℕ) → 1 ≤ n → n ≤ 200 → decimal n ≡ word.now → ⊥) }
{
    match number(word)? {
        size @ 1..=200 => Some(size),
        _ => None,
    }
}

/// Whether these bytes are the decimal digits of a number.
fn spells(digits: &[u8], number: u32) -> bool
    ensures { IsTrue result ↔ (digits.now ≡ decimal number) }
{
    let [front @ .., last] = digits else {
        return false;
    };
    if *last != b'0' + (number % 10) as u8 {
        return false;
    }
    if number < 10 {
        front.is_empty()
    } else {
        spells(front, number / 10)
    }
}

/// The address that a word writes: decimal digits, or `0x` and hexadecimal digits of either case, of at most 32 bits.
pub fn address(word: &str) -> Option<u32>
    ensures { result ≡ address_of word.now }
{
    let digits = word.as_bytes();
    if is_signed(digits) {
        None
    } else {
        value(read_numeral(digits))
    }
}

/// Whether a minus sign stands first.
fn is_signed(digits: &[u8]) -> bool
    ensures { IsTrue result ↔ ((1 ≤ length digits.now) × (get_or digits.now 0 0 ≡ 45)) }
{
    matches!(digits, [b'-', ..])
}

/// The value of a number that fits.
fn value(numeral: Numeral) -> Option<u32>
    ensures { result ≡ value_of numeral }
{
    match numeral {
        Numeral::Value(value) => Some(value),
        Numeral::Malformed | Numeral::TooWide => None,
    }
}
