//! The code of single instructions, of entries and of returns, worked out by hand from the manual's A7.7.

ghost use Rattle.example_code.specs.Operations.{ComputesOperations};
ghost use Rattle.example_code.specs.Addresses.{ComputesAddresses};
ghost use Rattle.example_code.specs.Calls.{ComputesCalls};
ghost use Rattle.example_code.specs.Frames.{ComputesFrames};

/// Numbers, copies, each operation and each comparison.
pub fn operations()
    ensures { ComputesOperations }
{}

/// Addresses, elements, fields, loads and stores.
pub fn addresses()
    ensures { ComputesAddresses }
{}

/// Calls of each kind.
pub fn calls()
    ensures { ComputesCalls }
{}

/// Entries and returns of small and of large frames, with lent locals.
pub fn frames()
    ensures { ComputesFrames }
{}
