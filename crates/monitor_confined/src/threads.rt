//! The steps of a thread, whatever code it executes. Each function is a law and does nothing.

ghost use Rattle.monitor_confined.specs.ThreadSteps.{ThreadStepsAreConfined, ThreadStepsLead};

use crate::protection::threads_reach;
use machine_model::any_step::{unprivileged_accesses, unprivileged_steps};
use machine_model::running::shapes;

/// A thread's step begins protected by the regions of CUR and TOP. Each byte that it stores to, pushes of an exception's entry
/// included, lies in a slot of its compartment with AP 011 or in the stack below TOP; and on a closed board each that it loads, an
/// exception's vector included, lies in flash, in a slot or in the stack below TOP.
pub fn steps_are_confined()
    ensures { ThreadStepsAreConfined }
{
    unprivileged_accesses();
    threads_reach();
}

/// A thread's step ends the machine; or goes on as a thread, with the same lists in the monitor's block; or comes to the first
/// instruction of one of the monitor's handlers: that of an SVC that stands in flash at the program counter, or that of a
/// refused access, with the frame pushed.
pub fn steps_lead()
    ensures { ThreadStepsLead }
{
    unprivileged_steps();
    shapes();
    threads_reach();
}
