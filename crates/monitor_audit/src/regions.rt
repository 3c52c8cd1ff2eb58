//! The check of regions.

ghost use Rattle.std.specs.Prelude.{◌≡◌, ◌<◌, ◌^◌, length};
ghost use Rattle.monitor_model.specs.Records.{number_of_slots};
ghost use Rattle.monitor_model.specs.RegionChecks as checks;
ghost use Rattle.monitor_model.specs.Checks.{regions_fail};
ghost use Rattle.monitor_audit.specs.Reach.{IsInReach};

use crate::forms::{is_code, is_slot};
use machine_devices::image::Image;
use machine_protection::region::Region;
use monitor_constants::number_of_slots;
use monitor_model::{CompRecord, Tables};

/// Whether the regions are slots, numbered from 4 on.
fn are_slots(image: &Image, tables: &Tables, slots: &[Region]) -> bool
    ensures { result ≡ checks.are_slots image.now tables.now 4 slots.now }
{
    for (index, slot) in slots.iter().enumerate() {
        if !is_slot(image, tables, slot, 4 + index as u64) {
            return false;
        }
    }
    true
}

/// Whether a mask has no bit that is no lendable local's.
fn is_mask(tables: &Tables, mask: u32) -> bool
    ensures { result ≡ checks.is_mask tables.now mask }
{
    let lends = tables.lends.len();
    lends >= 32 || mask < 1 << lends
}

/// Whether all regions of a compartment have their forms, and its masks are of lendable locals.
fn is_compartment(image: &Image, tables: &Tables, compartment: &CompRecord) -> bool
    requires { length image.now.flash < 2 ^ 32 }
    ensures { result ≡ checks.is_compartment image.now tables.now compartment.now }
{
    is_code(image, &compartment.code)
        && are_slots(image, tables, compartment.slots.as_slice())
        && is_mask(tables, compartment.mask)
        && is_mask(tables, compartment.reads)
}

/// The address of the first compartment's record that fails.
pub fn regions_fault(image: &Image, tables: &Tables) -> Option<u32>
    requires flash { length image.now.flash < 2 ^ 32 }
    requires reach { IsInReach tables.now }
    ensures { result ≡ regions_fail image.now tables.now }
{
    let size = 8 * number_of_slots(tables) as u64 + 16;
    let mut at = u64::from(tables.base) + 4096 + 32;
    for compartment in tables.comps.as_slice() {
        if !is_compartment(image, tables, compartment) {
            return Some(at as u32);
        }
        at += size;
    }
    None
}
