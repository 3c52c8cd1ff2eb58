//! The check of the header.

ghost use Rattle.std.specs.Prelude.{◌≡◌};
ghost use Rattle.monitor_model.specs.Checks.{header_fails};

use base_ranges::are_apart;
use machine_devices::image::Image;
use machine_devices::limits::BLOCK_SIZE;

/// The base of flash where the image has no monitor's block or no stack, where these overlap, or where flash does not reach the
/// records.
pub fn header_fault(image: &Image) -> Option<u32>
    ensures { result ≡ header_fails image.now }
{
    if image.monitor != 0
        && image.stack_size != 0
        && are_apart(
            image.monitor,
            BLOCK_SIZE,
            image.stack_base,
            image.stack_size,
        )
        && image.flash.len() >= 4096 + 32
    {
        None
    } else {
        Some(image.flash_base)
    }
}
