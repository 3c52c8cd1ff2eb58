//! The theorem of the language. Each function is a law and does nothing.

ghost use Rattle.monitor_steps.specs.Runs.{AllCodeHasEffect, AllFlashHasCode, CodeHasItsLength, TicksAreBounded};

use base_words::laws::comparisons;
use machine_model::running::shapes;

/// The code of a list, run by the machine, has the list's effect: it comes to where the list's outcome shows, within the steps
/// that are counted, each of which makes no event and accesses only what is allowed.
pub fn code_has_effect()
    ensures { AllCodeHasEffect }
{
    shapes();
    comparisons();
}

/// Code that flash holds, and that may be fetched, stands there; its length is the one that is counted.
pub fn code_stands()
    ensures in_flash { AllFlashHasCode }
    ensures length { CodeHasItsLength }
{}

/// The steps from a core are no more than the most.
pub fn ticks_are_bounded()
    ensures { TicksAreBounded }
{}
