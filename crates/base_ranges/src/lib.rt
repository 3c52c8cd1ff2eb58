//! Ranges of addresses, and where the window of a peripheral may lie.
#![tactic(auto)]

ghost use Rattle.std.specs.Prelude.{◌≡◌, ◌<◌};
ghost use Rattle.base_ranges.specs.Ranges as ranges;

/// The first address of the peripherals' part of the memory map.
pub const PERIPHERALS_BASE: u32 = 0x4000_0000;

/// How many bytes the peripherals' part of the memory map has.
pub const PERIPHERALS_SIZE: u32 = 0x2000_0000;

/// Whether a range lies inside another.
pub fn is_inside(base: u32, size: u32, outer: u32, outer_size: u32) -> bool
    ensures { result ≡ ranges.is_inside base size outer outer_size }
{
    outer <= base && u64::from(base) + u64::from(size) <= u64::from(outer) + u64::from(outer_size)
}

/// Whether two ranges have no address in common.
pub fn are_apart(base: u32, size: u32, other: u32, other_size: u32) -> bool
    ensures { result ≡ ranges.are_apart base size other other_size }
{
    u64::from(base) + u64::from(size) <= u64::from(other)
        || u64::from(other) + u64::from(other_size) <= u64::from(base)
}

/// Whether a window may have so many bytes.
pub fn is_window_size(size: u32) -> bool
    ensures { result ≡ ranges.is_window_size size }
{
    matches!(
        size,
        32 | 64 | 128 | 256 | 512 | 1024 | 2048 | 4096 | 8192 | 16384 | 32768 | 65536
    )
}

/// Whether a window of this size may begin there.
pub fn is_window_place(base: u32, size: u32) -> bool
    requires { 0 < size }
    ensures { result ≡ ranges.is_window_place base size }
{
    base % size == 0 && is_inside(base, size, PERIPHERALS_BASE, PERIPHERALS_SIZE)
}
