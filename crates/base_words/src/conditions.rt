//! The condition flags, and when a condition holds.

ghost use Rattle.std.specs.Prelude.{◌≡◌};
ghost use Rattle.std.specs.Int.{from_bool};
ghost use Rattle.base_words.specs.Flags.{add_with_carry, add_flags, compare_flags, result_flags, holds};

/// The condition flags of the Application Program Status Register (B1.4.2).
#[derive(Clone, Copy, Default, PartialEq, Eq)]
pub struct Flags {
    /// N: bit 31 of the result.
    pub negative: bool,
    /// Z: the result is 0.
    pub is_zero: bool,
    /// C: the unsigned result did not fit.
    pub carry: bool,
    /// V: the signed result did not fit.
    pub overflow: bool,
}

/// The sum of two words and a carry, with its flags (AddWithCarry).
#[tactic(auto, unfolding(crate::specs::Flags::add_flags))]
pub fn add_with_carry(x: u32, y: u32, carry: bool) -> (u32, Flags)
    ensures value { result.0 ≡ add_with_carry x y (from_bool carry) }
    ensures flags { result.1 ≡ add_flags x y (from_bool carry) }
{
    let (sum, over_y) = x.overflowing_add(y);
    let (value, over_carry) = sum.overflowing_add(u32::from(carry));
    let flags = Flags {
        negative: value >> 31 == 1,
        is_zero: value == 0,
        carry: over_y || over_carry,
        overflow: x >> 31 == y >> 31 && value >> 31 != x >> 31,
    };
    (value, flags)
}

/// The flags of a comparison of `x` with `y` (CMP): those of `x` + NOT(`y`) + 1.
pub fn compare_flags(x: u32, y: u32) -> Flags
    ensures { result ≡ compare_flags x y }
{
    add_with_carry(x, !y, true).1
}

/// The flags after a result that sets N and Z alone, as MUL or AND without a shift.
pub fn result_flags(flags: Flags, value: u32) -> Flags
    ensures { result ≡ result_flags flags value }
{
    Flags {
        negative: value >> 31 == 1,
        is_zero: value == 0,
        ..flags
    }
}

/// Whether the condition with this number holds (ConditionPassed): EQ is 0 and LE is 13; 14 and
/// above always hold.
#[tactic(auto, unfolding(crate::specs::Flags::holds))]
pub fn holds(condition: u32, flags: Flags) -> bool
    ensures { result ≡ holds condition flags }
{
    match condition {
        0 => flags.is_zero,
        1 => !flags.is_zero,
        2 => flags.carry,
        3 => !flags.carry,
        4 => flags.negative,
        5 => !flags.negative,
        6 => flags.overflow,
        7 => !flags.overflow,
        8 => flags.carry && !flags.is_zero,
        9 => !flags.carry || flags.is_zero,
        10 => flags.negative == flags.overflow,
        11 => flags.negative != flags.overflow,
        12 => !flags.is_zero && flags.negative == flags.overflow,
        13 => flags.is_zero || flags.negative != flags.overflow,
        _ => true,
    }
}
