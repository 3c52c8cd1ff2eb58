//! Laws of the bound on the stack: functions that do nothing, whose contract is the law.

ghost use Rattle.aces_stack.specs.StackLaws.{BoundedRunsStayWithin, BoundedFirmwaresAreRefined, NeedsHaveFunctions};

use ir_laws::runs::values;

/// Where there is a bound of at most the stack's size, every state of every run is within the stack's limit.
pub fn bounded_runs()
    ensures { BoundedRunsStayWithin }
{
    values();
}

/// An image that refines its firmware within the stack's limit refines it whole, where there is such a bound.
pub fn bounded_firmwares()
    ensures { BoundedFirmwaresAreRefined }
{
    bounded_runs();
}

/// The functions of the calls of a typed program are there.
pub fn functions_are_there()
    ensures { NeedsHaveFunctions }
{}
