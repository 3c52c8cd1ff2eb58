//! What confinement asks of the handlers, from the monitor's law. Each function is a law and does nothing.

ghost use Rattle.monitor_confined.specs.FromLaw.{FaultsAreHandled, CallsAreHandled, PlacedLawsConfine};

use machine_model::running::frames;

/// The handler of MemManage does what confinement asks of it, by the monitor's law: it ends the machine, or the thread goes on
/// with the block's lists as they were.
pub fn faults_are_handled()
    ensures { FaultsAreHandled }
{}

/// The handler of SVC does what confinement asks of it, by the monitor's law, for every number: it ends the machine, or enters a
/// target of a site's record, leaves to the last saved entry, lends or unlends.
pub fn calls_are_handled()
    ensures { CallsAreHandled }
{
    frames();
}

/// So both handlers keep what confinement asks of them, where the tables are placed.
pub fn laws_confine()
    ensures { PlacedLawsConfine }
{
    faults_are_handled();
    calls_are_handled();
}
