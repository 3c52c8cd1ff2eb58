//! The monitor's code for sample tables.

ghost use Rattle.example_monitor.specs.Lengths.{ComputesLengths};
ghost use Rattle.example_monitor.specs.Pages.{ComputesPage};

/// How long the code of each list is, on boards with 8 and 16 regions, open and closed.
pub fn lengths()
    ensures { ComputesLengths }
{}

/// The first 4,096 bytes of flash.
pub fn first_bytes()
    ensures { ComputesPage }
{}
