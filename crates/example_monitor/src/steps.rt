//! Lists of privileged steps: what they do to a core, their code, and how many steps they take.

ghost use Rattle.example_monitor.specs.SmallLists.{ComputesSteps, ComputesCode};

/// A loop, a test, operations, loads and stores, the special registers, and each way in which a list ends.
pub fn small_lists()
    ensures effects { ComputesSteps }
    ensures code { ComputesCode }
{}
