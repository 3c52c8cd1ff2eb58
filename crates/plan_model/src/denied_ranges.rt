//! Ranges of addresses of devices that no compartment may ever reach.

ghost use Rattle.std.specs.Prelude.{◌≡◌};
ghost use Rattle.plan_model.specs.Denied as denied;

use base_names::Name;

/// The most ranges that a board denies.
pub const DENIED_LIMIT: usize = 64;

/// The first address of devices (Armv7-M Architecture Reference Manual, B3.1, peripherals).
pub const FIRST_DEVICE: u32 = 0x4000_0000;

/// The first address behind those of devices.
pub const DEVICE_END: u32 = 0x6000_0000;

/// A range of addresses of devices that no compartment may ever reach.
pub struct Denied {
    /// Its name.
    pub name: Name,
    /// The first address.
    pub base: u32,
    /// How many bytes, 1 or more.
    pub size: u32,
}

impl Drop for Denied {
    fn drop(self) {
        let Denied {
            name: _,
            base: _,
            size: _,
        } = self;
    }
}

/// Whether a range of `size` bytes from `base` on has an address in common with a denied one.
fn meets(base: u32, size: u32, range: &Denied) -> bool
    ensures { result ≡ denied.meets base size range.now }
{
    u64::from(base) < u64::from(range.base) + u64::from(range.size)
        && u64::from(range.base) < u64::from(base) + u64::from(size)
}

/// The number of the first denied range that a range of `size` bytes from `base` on meets.
pub fn first_met(ranges: &[Denied], base: u32, size: u32) -> Option<usize>
    ensures { result ≡ denied.first_met ranges.now base size }
{
    ranges.iter().position(|range| meets(base, size, range))
}
