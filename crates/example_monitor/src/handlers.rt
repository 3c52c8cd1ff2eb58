//! The monitor's handlers on a small board, whose two compartments share a stack of 512 bytes.

ghost use Rattle.example_monitor.specs.Handled.{ComputesCalls, ComputesLoans, ComputesHalts};

/// Enter and leave.
pub fn calls()
    ensures { ComputesCalls }
{}

/// Lend, unlend, and a store and a load that are made by a loan.
pub fn loans()
    ensures { ComputesLoans }
{}

/// Each number with which the handlers and start-up halt.
pub fn halts()
    ensures { ComputesHalts }
{}
