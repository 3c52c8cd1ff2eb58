//! Whole runs, as far as they follow from what the handlers do. Each function is a law and does nothing.

ghost use Rattle.monitor_confined.specs.WholeRuns.{ChangesKeepOrder, HandlersConfineRuns, HandlersConfineImages};

use crate::threads::{steps_are_confined, steps_lead};
use machine_model::running::shapes;

/// The monitor's block stays orderly by what the handlers may make of it: by enter, leave, lend, unlend or an emulated access.
pub fn changes_keep_order()
    ensures { ChangesKeepOrder }
{}

/// A run that comes to the invariant is confined, where both handlers keep what confinement asks of them: its stores, protection,
/// switches and loads.
pub fn handlers_confine()
    ensures runs { HandlersConfineRuns }
    ensures images { HandlersConfineImages }
{
    changes_keep_order();
    shapes();
    steps_are_confined();
    steps_lead();
}
