//! Ranges of addresses whose sizes may take more than 32 bits.

ghost use Rattle.std.specs.Prelude.{◌≡◌, ◌≤◌, ◌^◌};
ghost use Rattle.base_ranges.specs.Ranges as ranges;
ghost use Rattle.monitor_model.specs.RegionChecks as checks;

use machine_devices::image::Image;
use machine_devices::limits::BLOCK_SIZE;
use monitor_model::Tables;

/// Whether a range lies inside another.
pub(crate) fn lies_inside(base: u64, size: u64, outer: u32, outer_size: u32) -> bool
    requires base { base ≤ 2 ^ 33 }
    requires size { size ≤ 2 ^ 32 }
    ensures { result ≡ ranges.is_inside base size outer outer_size }
{
    u64::from(outer) <= base && base + size <= u64::from(outer) + u64::from(outer_size)
}

/// Whether two ranges have no address in common.
fn lies_apart(base: u64, size: u64, other: u32, other_size: u32) -> bool
    requires base { base ≤ 2 ^ 33 }
    requires size { size ≤ 2 ^ 32 }
    ensures { result ≡ ranges.are_apart base size other other_size }
{
    base + size <= u64::from(other) || u64::from(other) + u64::from(other_size) <= base
}

/// Whether a range lies in RAM, apart from the stack and from the monitor's block.
pub(crate) fn is_data_range(image: &Image, tables: &Tables, base: u64, size: u64) -> bool
    requires base { base ≤ 2 ^ 33 }
    requires size { size ≤ 2 ^ 32 }
    ensures { result ≡ checks.is_data_range image.now tables.now base size }
{
    lies_inside(base, size, image.ram_base, image.ram_size)
        && lies_apart(base, size, tables.stack.base, tables.stack.size)
        && lies_apart(base, size, tables.monitor, BLOCK_SIZE)
}
