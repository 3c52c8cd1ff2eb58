//! The check of the ranges with initial words.

ghost use Rattle.std.specs.Prelude.{◌≡◌};
ghost use Rattle.monitor_model.specs.Checks as checks;
ghost use Rattle.monitor_audit.specs.Reach.{IsInReach};

use crate::places::places_of;
use crate::ranges::is_data_range;
use machine_devices::image::Image;
use monitor_model::{InitRecord, Tables};

/// Whether the range is one of whole words of RAM, at least one, whose initial words stand at this address.
fn is_init(image: &Image, tables: &Tables, words: u64, init: &InitRecord) -> bool
    ensures { result ≡ checks.is_init image.now tables.now words init.now }
{
    init.at % 4 == 0
        && init.end % 4 == 0
        && init.at < init.end
        && is_data_range(
            image,
            tables,
            u64::from(init.at),
            u64::from(init.end - init.at),
        )
        && u64::from(init.from) == words
}

/// The address of the first record that fails.
pub fn inits_fault(image: &Image, tables: &Tables) -> Option<u32>
    requires { IsInReach tables.now }
    ensures { result ≡ checks.inits_fail image.now tables.now }
{
    let places = places_of(tables);
    let mut at = places.inits;
    let mut words = u64::from(places.words);
    for init in tables.inits.as_slice() {
        if !is_init(image, tables, words, init) {
            return Some(at);
        }
        words += u64::from(init.end.saturating_sub(init.at));
        at += 12;
    }
    None
}
