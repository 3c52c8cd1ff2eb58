//! Tables of small firmwares.

ghost use Rattle.example_image.specs.LentTables.{ComputesLent};
ghost use Rattle.example_image.specs.LoopTables.{ComputesLoop};

/// A local that is lent to other compartments.
pub fn lent_local()
    ensures { ComputesLent }
{}

/// A control loop in four files.
pub fn control_loop()
    ensures { ComputesLoop }
{}
