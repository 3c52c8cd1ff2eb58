//! Numbers as firmware texts and tapes write them.
#![tactic(auto)]

ghost use Rattle.std.specs.Prelude.{◌≡◌};
ghost use Rattle.base_numerals.specs.Capped.{capped};
ghost use Rattle.base_numerals.specs.Numerals as numerals;

/// What a run of bytes is as a number.
#[derive(Clone, Copy, PartialEq, Eq)]
pub enum Numeral {
    /// No number.
    Malformed,
    /// A number greater than 2^32 - 1, or less than -2^31.
    TooWide,
    /// The number, a negative one modulo 2^32.
    Value(u32),
}

/// What no number of 32 bits reaches: a greater number counts as this one.
const CAP: u64 = 1 << 32;

/// The number that the bytes write: decimal digits, or `0x` and hexadecimal digits, small or capital,
/// behind a `-` or without one. Takes no memory, and time linear in the bytes.
#[tactic(auto, using(crate::proofs::Signs::numeral_negative), unfolding(crate::specs::Numerals::numeral))]
pub fn read_numeral(bytes: &[u8]) -> Numeral
    ensures { result ≡ numerals.numeral bytes.now }
{
    match bytes {
        [] => Numeral::Malformed,
        [b'-', rest @ ..] => negative(magnitude(rest)),
        _ => positive(magnitude(bytes)),
    }
}

fn positive(magnitude: Option<u64>) -> Numeral
    ensures { result ≡ numerals.positive magnitude }
{
    match magnitude {
        None => Numeral::Malformed,
        Some(n) if n < CAP => Numeral::Value(n as u32),
        Some(_) => Numeral::TooWide,
    }
}

fn negative(magnitude: Option<u64>) -> Numeral
    ensures { result ≡ numerals.negative magnitude }
{
    match magnitude {
        None => Numeral::Malformed,
        Some(n) if n > 1 << 31 => Numeral::TooWide,
        Some(0) => Numeral::Value(0),
        Some(n) => Numeral::Value((CAP - n) as u32),
    }
}

/// The number without a sign, up to `CAP`.
fn magnitude(bytes: &[u8]) -> Option<u64>
    ensures { result ≡ capped (numerals.magnitude bytes.now) }
{
    match bytes {
        [b'0', b'x', rest @ ..] => hexadecimal(rest),
        _ => decimal(bytes),
    }
}

fn decimal_digit(byte: u8) -> Option<u64>
    ensures { result ≡ numerals.decimal_digit byte }
{
    match byte {
        b'0'..=b'9' => Some(u64::from(byte - b'0')),
        _ => None,
    }
}

fn hexadecimal_digit(byte: u8) -> Option<u64>
    ensures { result ≡ numerals.hexadecimal_digit byte }
{
    match byte {
        b'0'..=b'9' => Some(u64::from(byte - b'0')),
        b'a'..=b'f' => Some(u64::from(byte - b'a') + 10),
        b'A'..=b'F' => Some(u64::from(byte - b'A') + 10),
        _ => None,
    }
}

/// The number of at least one decimal digit, up to `CAP`.
#[tactic(auto, using(crate::proofs::Digits::digit_rules))]
fn decimal(bytes: &[u8]) -> Option<u64>
    ensures { result ≡ capped (numerals.digits numerals.decimal_digit 10 bytes.now) }
{
    if bytes.is_empty() {
        return None;
    }
    let mut number = 0u64;
    for byte in bytes {
        let digit = decimal_digit(*byte)?;
        number = (10 * number + digit).min(CAP);
    }
    Some(number)
}

/// The number of at least one hexadecimal digit, up to `CAP`.
#[tactic(auto, using(crate::proofs::Digits::digit_rules))]
fn hexadecimal(bytes: &[u8]) -> Option<u64>
    ensures { result ≡ capped (numerals.digits numerals.hexadecimal_digit 16 bytes.now) }
{
    if bytes.is_empty() {
        return None;
    }
    let mut number = 0u64;
    for byte in bytes {
        let digit = hexadecimal_digit(*byte)?;
        number = (16 * number + digit).min(CAP);
    }
    Some(number)
}
