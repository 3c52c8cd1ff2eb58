//! Arithmetic on 32-bit words, as the instructions of Armv7-M and the firmware language mean it.

ghost use Rattle.std.specs.Prelude.{◌≡◌};
ghost use Rattle.base_words.specs.Arithmetic.{add, subtract, multiply, moved, unsigned_quotient, signed_quotient, unsigned_remainder, signed_remainder, bit_clear, shift_left, shift_right, shift_right_signed, rotate_right, shifted_left_carry, shifted_right_carry, shifted_right_signed_carry, rotated_right_carry, signed_less, signed_at_most};

/// The sum, modulo 2^32.
pub fn add(a: u32, b: u32) -> u32
    ensures { result ≡ add a b }
{
    a.wrapping_add(b)
}

/// The difference, modulo 2^32.
pub fn subtract(a: u32, b: u32) -> u32
    ensures { result ≡ subtract a b }
{
    a.wrapping_sub(b)
}

/// The product, modulo 2^32.
pub fn multiply(a: u32, b: u32) -> u32
    ensures { result ≡ multiply a b }
{
    a.wrapping_mul(b)
}

/// The address with a signed offset added, modulo 2^32.
pub fn moved_address(address: u32, offset: i32) -> u32
    ensures { result ≡ moved address offset }
{
    address.wrapping_add_signed(offset)
}

/// The unsigned quotient (UDIV): 0 where `b` is 0.
#[tactic(auto, unfolding(crate::specs::Arithmetic::unsigned_quotient))]
pub fn unsigned_quotient(a: u32, b: u32) -> u32
    ensures { result ≡ unsigned_quotient a b }
{
    if b == 0 { 0 } else { a / b }
}

/// The signed quotient, rounded towards zero (SDIV): 0 where `b` is 0, and 0x80000000 by -1 is
/// 0x80000000.
#[tactic(auto, unfolding(crate::specs::Arithmetic::signed_quotient))]
pub fn signed_quotient(a: u32, b: u32) -> u32
    ensures { result ≡ signed_quotient a b }
{
    if b == 0 {
        return 0;
    }
    a.cast_signed()
        .wrapping_div(b.cast_signed())
        .cast_unsigned()
}

/// What the unsigned quotient leaves of `a`: `a` itself where `b` is 0.
#[tactic(auto, unfolding(crate::specs::Arithmetic::unsigned_remainder))]
pub fn unsigned_remainder(a: u32, b: u32) -> u32
    ensures { result ≡ unsigned_remainder a b }
{
    subtract(a, multiply(unsigned_quotient(a, b), b))
}

/// What the signed quotient leaves of `a`: `a` itself where `b` is 0.
#[tactic(auto, unfolding(crate::specs::Arithmetic::signed_remainder))]
pub fn signed_remainder(a: u32, b: u32) -> u32
    ensures { result ≡ signed_remainder a b }
{
    subtract(a, multiply(signed_quotient(a, b), b))
}

/// `a` without the bits of `b` (BIC).
#[tactic(auto, unfolding(crate::specs::Arithmetic::bit_clear))]
pub fn bit_clear(a: u32, b: u32) -> u32
    ensures { result ≡ bit_clear a b }
{
    a & !b
}

/// Shifts left by the low byte of `amount` (LSL): 0 by 32 or more.
#[tactic(auto, using(crate::proofs::Arithmetic::shift_left_all), unfolding(crate::specs::Arithmetic::shift_left))]
pub fn shift_left(value: u32, amount: u32) -> u32
    ensures { result ≡ shift_left value amount }
{
    let places = amount % 256;
    if places < 32 { value << places } else { 0 }
}

/// Shifts right by the low byte of `amount` (LSR): 0 by 32 or more.
#[tactic(auto, using(crate::proofs::Arithmetic::shift_right_all), unfolding(crate::specs::Arithmetic::shift_right))]
pub fn shift_right(value: u32, amount: u32) -> u32
    ensures { result ≡ shift_right value amount }
{
    let places = amount % 256;
    if places < 32 { value >> places } else { 0 }
}

/// Shifts right by the low byte of `amount` with copies of the sign (ASR): the sign in every bit by
/// 32 or more.
#[tactic(auto, using(crate::proofs::Arithmetic::shift_right_signed_is))]
pub fn shift_right_signed(value: u32, amount: u32) -> u32
    ensures { result ≡ shift_right_signed value amount }
{
    let places = (amount % 256).min(31);
    (value.cast_signed() >> places).cast_unsigned()
}

/// Rotates right by the low byte of `amount` (ROR).
#[tactic(auto, using(crate::proofs::Arithmetic::rotate_right_is))]
pub fn rotate_right(value: u32, amount: u32) -> u32
    ensures { result ≡ rotate_right value amount }
{
    value.rotate_right(amount % 256)
}

/// The carry after `shift_left`, where it was `carry` (LSL_C): the last bit shifted out.
#[tactic(auto, using(crate::proofs::Arithmetic::shifted_left_carry_all), unfolding(crate::specs::Arithmetic::shifted_left_carry))]
pub fn shifted_left_carry(value: u32, amount: u32, carry: bool) -> bool
    ensures { result ≡ shifted_left_carry value amount carry }
{
    match amount % 256 {
        0 => carry,
        places @ 1..=32 => value >> (32 - places) & 1 == 1,
        _ => false,
    }
}

/// The carry after `shift_right`, where it was `carry` (LSR_C): the last bit shifted out.
#[tactic(auto, using(crate::proofs::Arithmetic::shifted_right_carry_all), unfolding(crate::specs::Arithmetic::shifted_right_carry))]
pub fn shifted_right_carry(value: u32, amount: u32, carry: bool) -> bool
    ensures { result ≡ shifted_right_carry value amount carry }
{
    match amount % 256 {
        0 => carry,
        places @ 1..=32 => value >> (places - 1) & 1 == 1,
        _ => false,
    }
}

/// The carry after `shift_right_signed`, where it was `carry` (ASR_C): the last bit shifted out.
#[tactic(auto, unfolding(crate::specs::Arithmetic::shifted_right_signed_carry))]
pub fn shifted_right_signed_carry(value: u32, amount: u32, carry: bool) -> bool
    ensures { result ≡ shifted_right_signed_carry value amount carry }
{
    match amount % 256 {
        0 => carry,
        places => value >> (places - 1).min(31) & 1 == 1,
    }
}

/// The carry after `rotate_right`, where it was `carry` (ROR_C): bit 31 of the result.
#[tactic(auto, unfolding(crate::specs::Arithmetic::rotated_right_carry))]
pub fn rotated_right_carry(value: u32, amount: u32, carry: bool) -> bool
    ensures { result ≡ rotated_right_carry value amount carry }
{
    if amount % 256 == 0 {
        carry
    } else {
        rotate_right(value, amount) >> 31 == 1
    }
}

/// Whether `a` is below `b`, both read as signed.
#[tactic(auto, unfolding(crate::specs::Arithmetic::signed_less))]
pub fn signed_less(a: u32, b: u32) -> bool
    ensures { result ≡ signed_less a b }
{
    a.cast_signed() < b.cast_signed()
}

/// Whether `a` is at most `b`, both read as signed.
#[tactic(auto, unfolding(crate::specs::Arithmetic::signed_at_most))]
pub fn signed_at_most(a: u32, b: u32) -> bool
    ensures { result ≡ signed_at_most a b }
{
    a.cast_signed() <= b.cast_signed()
}
