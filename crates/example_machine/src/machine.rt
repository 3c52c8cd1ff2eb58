//! Single steps, and a run, of a small machine. Their outcomes were worked out by hand from the manual.

ghost use Rattle.example_machine.specs.ComputedSteps.{ComputesData, ComputesBranches, ComputesTransfers};
ghost use Rattle.example_machine.specs.ComputedFaults.{
  ComputesProtection,
  ComputesExceptions,
  ComputesTests,
  ComputesWindows,
  ComputesStops,
  ComputesSystem,
  ComputesRun,
};

/// Instructions that compute (A7.7), branch, load and store.
pub fn computed_steps()
    ensures of_data { ComputesData }
    ensures of_branches { ComputesBranches }
    ensures of_transfers { ComputesTransfers }
{}

/// Protection (B3.5), exceptions (B1.5), windows, every reason to stop, the system's registers, and a run.
pub fn computed_faults()
    ensures of_protection { ComputesProtection }
    ensures of_exceptions { ComputesExceptions }
    ensures of_tests { ComputesTests }
    ensures of_windows { ComputesWindows }
    ensures of_stops { ComputesStops }
    ensures of_system { ComputesSystem }
    ensures of_run { ComputesRun }
{}
