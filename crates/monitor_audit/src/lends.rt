//! The check of lendable locals.

ghost use Rattle.std.specs.Prelude.{◌≡◌};
ghost use Rattle.monitor_model.specs.Checks as checks;
ghost use Rattle.monitor_audit.specs.Reach.{IsInReach};

use crate::places::places_of;
use monitor_model::Tables;

/// Whether a lendable local may have so many bytes.
fn is_lend(size: u32) -> bool
    ensures { result ≡ checks.is_lend size }
{
    1 <= size && size <= 0x1_0000
}

/// The address of the first size that fails.
pub fn lends_fault(tables: &Tables) -> Option<u32>
    requires { IsInReach tables.now }
    ensures { result ≡ checks.lends_fail tables.now }
{
    let places = places_of(tables);
    let mut at = places.lends;
    for size in tables.lends.as_slice() {
        if !is_lend(*size) {
            return Some(at);
        }
        at += 4;
    }
    None
}
