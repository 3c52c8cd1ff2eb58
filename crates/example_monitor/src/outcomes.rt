//! What the handlers come to, on a small stack.

ghost use Rattle.example_monitor.specs.Calls.{ComputesCalls};
ghost use Rattle.example_monitor.specs.Faults.{ComputesFaults};

/// Enter, leave, lend and unlend, and each halt of the handler of SVC.
pub fn calls()
    ensures { ComputesCalls }
{}

/// Accesses of a lent local, and each halt of the handler of MemManage.
pub fn faults()
    ensures { ComputesFaults }
{}
