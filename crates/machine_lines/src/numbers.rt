//! The digits of printed numbers, in a buffer of fixed room.

ghost use Rattle.std.specs.Prelude.{◌≡◌, ◌<◌, ◌≤◌, ◌+◌, ◌++◌, ◌∷◌, [], length, false};
ghost use Rattle.std.specs.Fmt.{decimal, digit_glyph};
ghost use Rattle.machine_lines.specs.Lines.{hexadecimal};

use arrayvec::ArrayVec;
use std::marker::Model;

/// The room for digits, in bytes: a number of 64 bits has at most twenty decimal ones, and of hexadecimal ones at most 255 are asked for.
const ROOM: usize = 256;

/// The digits of a number, as bytes. They take no memory.
#[derive(Drop)]
pub struct Digits {
    bytes: ArrayVec<u8, ROOM>,
}

impl Model for Digits {
    ghost use Rattle.std.specs.Prelude.{List, ℕ};

    ghost Value = { List ℕ };

    ghost view = { λ d. d.bytes.items };
}

/// A lower-case hexadecimal digit.
fn digit(value: u8) -> u8
    requires { value < 16 }
    ensures { result ≡ digit_glyph false value }
{
    if value < 10 {
        b'0' + value
    } else {
        b'a' - 10 + value
    }
}

impl Digits {
    /// No digits.
    fn none() -> Digits
        ensures { result ≡ [] }
    {
        Digits {
            bytes: ArrayVec::new(),
        }
    }

    /// The bytes, lent as a slice.
    pub fn as_slice(&self) -> &[u8]
        ensures { result.now ≡ self.now }
    {
        self.bytes.as_slice()
    }

    /// Puts one byte behind those that are there.
    fn append_byte(&mut self, byte: u8)
        requires { length self.old < 256 }
        ensures bytes { self.new ≡ self.old ++ byte ∷ [] }
        ensures length { length self.new ≡ length self.old + 1 }
    {
        self.bytes.push(byte);
    }

    /// Puts so many hexadecimal digits of a number behind the bytes that are there.
    #[tactic(auto, unfolding(crate::specs::Lines::hexadecimal))]
    fn append_hexadecimal(&mut self, count: u8, number: u32)
        requires { length self.old + count ≤ 256 }
        ensures bytes { self.new ≡ self.old ++ hexadecimal count number }
        ensures length { length self.new ≡ length self.old + count }
    {
        if count == 0 {
            return;
        }
        self.append_hexadecimal(count - 1, number / 16);
        self.append_byte(digit((number % 16) as u8));
    }

    /// Puts the decimal digits of a number behind the bytes that are there.
    #[tactic(auto, using(std::proofs::lemmas::Fmt::decimal_digit, crate::proofs::Digits::decimal_length))]
    fn append_decimal(&mut self, number: u64)
        requires { length self.old + length (decimal number) ≤ 256 }
        ensures { self.new ≡ self.old ++ decimal number }
    {
        if number < 10 {
            return self.append_byte(b'0' + number as u8);
        }
        self.append_decimal(number / 10);
        self.append_byte(b'0' + (number % 10) as u8);
    }
}

/// So many lower-case hexadecimal digits of a number, the last digit last.
pub fn hexadecimal_digits(count: u8, number: u32) -> Digits
    ensures digits { result ≡ hexadecimal count number }
    ensures length { length result ≡ count }
{
    let mut digits = Digits::none();
    digits.append_hexadecimal(count, number);
    digits
}

/// The decimal digits of a number, which are at most twenty.
#[tactic(auto, using(crate::proofs::Digits::decimal_short))]
pub fn decimal_digits(number: u64) -> Digits
    ensures digits { result ≡ decimal number }
    ensures length { length result ≤ 20 }
{
    let mut digits = Digits::none();
    digits.append_decimal(number);
    digits
}
