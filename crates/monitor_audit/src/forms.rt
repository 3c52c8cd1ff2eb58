//! The forms of a compartment's regions.

ghost use Rattle.std.specs.Prelude.{◌≡◌, ◌+◌, ◌-◌, ◌*◌, ◌/◌, ◌<◌, ◌^◌, ◌||◌, length, nat_eq};
ghost use Rattle.std.specs.Int.{bit_at};
ghost use Rattle.monitor_model.specs.RegionChecks as checks;

use crate::parts::{base_of, size_log, size_of, taken_out};
use crate::ranges::{is_data_range, lies_inside};
use base_ranges::{PERIPHERALS_BASE, PERIPHERALS_SIZE};
use machine_devices::image::Image;
use machine_protection::region::Region;
use machine_protection::words::Rights;
use monitor_model::Tables;

/// Whether the words are those of a region of this number, with these eighths taken out, for a block at a multiple of its size.
fn has_form(region: &Region, number: u64, srd: u32, rights: Rights) -> bool
    requires number { number < 2 ^ 63 + 2 ^ 32 }
    requires srd { srd < 2 ^ 8 }
    ensures { result ≡ checks.has_form number srd rights region.now }
{
    let log = size_log(region);
    4 < log
        && base_of(region) % size_of(region) == 0
        && u64::from(region.rbar) == base_of(region) + 16 + number
        && region.rasr == rights.word() + srd * 256 + (log - 1) * 2
}

/// Whether an eighth is taken out, or holds data alone.
fn eighth_holds_data(image: &Image, tables: &Tables, region: &Region, number: u32) -> bool
    requires { number < 8 }
    ensures { result ≡ (nat_eq (bit_at (checks.taken_out region.now) number) 1
        || checks.is_data_range image.now tables.now (checks.base_of region.now + number * (checks.size_of region.now / 8)) (checks.size_of region.now / 8)) }
{
    let part = size_of(region) / 8;
    (taken_out(region) >> number) % 2 == 1
        || is_data_range(
            image,
            tables,
            base_of(region) + u64::from(number) * part,
            part,
        )
}

/// Whether each eighth is taken out or holds data alone.
fn eighths_hold_data(image: &Image, tables: &Tables, region: &Region) -> bool
    ensures { result ≡ checks.eighths_hold_data image.now tables.now region.now 8 }
{
    for number in 0..8 {
        if !eighth_holds_data(image, tables, region, number) {
            return false;
        }
    }
    true
}

/// Whether the region holds data alone.
fn holds_data(image: &Image, tables: &Tables, region: &Region) -> bool
    ensures { result ≡ checks.holds_data image.now tables.now region.now }
{
    if size_log(region) < 8 {
        is_data_range(image, tables, base_of(region), size_of(region))
    } else {
        eighths_hold_data(image, tables, region)
    }
}

/// Whether the region is a compartment's code: one of number 2 whose block lies in flash.
pub(crate) fn is_code(image: &Image, region: &Region) -> bool
    requires { length image.now.flash < 2 ^ 32 }
    ensures { result ≡ checks.is_code image.now region.now }
{
    has_form(region, 2, 0, Rights::Code)
        && lies_inside(
            base_of(region),
            size_of(region),
            image.flash_base,
            image.flash.len() as u32,
        )
}

/// Whether the region is free.
fn is_free(region: &Region, number: u64) -> bool
    requires { number < 2 ^ 63 + 2 ^ 32 }
    ensures { result ≡ checks.is_free number region.now }
{
    u64::from(region.rbar) == 16 + number && region.rasr == 0
}

/// Whether the region is one of data that all may write.
fn is_data(image: &Image, tables: &Tables, region: &Region, number: u64) -> bool
    requires { number < 2 ^ 63 + 2 ^ 32 }
    ensures { result ≡ checks.is_data image.now tables.now number region.now }
{
    has_form(region, number, taken_out(region), Rights::Ram) && holds_data(image, tables, region)
}

/// Whether the region is one of data that all may read, which closed images have.
fn is_read_only(image: &Image, tables: &Tables, region: &Region, number: u64) -> bool
    requires { number < 2 ^ 63 + 2 ^ 32 }
    ensures { result ≡ checks.is_read_only image.now tables.now number region.now }
{
    image.closed
        && has_form(region, number, taken_out(region), Rights::Background)
        && holds_data(image, tables, region)
}

/// Whether the region is a cover of peripherals.
fn is_cover(region: &Region, number: u64) -> bool
    requires { number < 2 ^ 63 + 2 ^ 32 }
    ensures { result ≡ checks.is_cover number region.now }
{
    has_form(region, number, 0, Rights::Device)
        && lies_inside(
            base_of(region),
            size_of(region),
            PERIPHERALS_BASE,
            PERIPHERALS_SIZE,
        )
}

/// Whether the region is one that a slot may hold.
pub(crate) fn is_slot(image: &Image, tables: &Tables, region: &Region, number: u64) -> bool
    requires { number < 2 ^ 63 + 2 ^ 32 }
    ensures { result ≡ checks.is_slot image.now tables.now number region.now }
{
    is_free(region, number)
        || is_data(image, tables, region, number)
        || is_read_only(image, tables, region, number)
        || is_cover(region, number)
}
