//! The code of whole functions and compartments, worked out by hand from their instructions.

ghost use Rattle.example_code.specs.Shortest.{ComputesShortest};
ghost use Rattle.example_code.specs.Sensor.{ComputesSizes, ComputesCode};
ghost use Rattle.example_code.specs.Lent.{ComputesLent};
ghost use Rattle.example_code.specs.Table.{ComputesTable};
ghost use Rattle.example_code.specs.Planned.{ComputesPlanned};

/// The shortest firmware.
pub fn shortest()
    ensures { ComputesShortest }
{}

/// A control loop in four files: how many bytes its functions and its compartments have under three groupings, and the
/// bytes of the compartments under two.
pub fn sensor()
    ensures sizes { ComputesSizes }
    ensures code { ComputesCode }
{}

/// A local that is lent to other compartments.
pub fn lent_local()
    ensures { ComputesLent }
{}

/// A table of functions, called by what a sensor gives.
pub fn table()
    ensures { ComputesTable }
{}

/// Call sites, loans, sizes and places by needs, graph and plan.
pub fn planned_firmwares()
    ensures { ComputesPlanned }
{}
