//! Where blocks lie, and the words of the regions that hold them.

ghost use Rattle.example_plan.specs.ControlPlan.{ComputesPlan, ComputesOtherPolicies};
ghost use Rattle.example_plan.specs.ClosedLoop.{ComputesClosedPlan};
ghost use Rattle.example_plan.specs.Tails.{ComputesTails, ComputesStackFirst};
ghost use Rattle.example_plan.specs.Sums.{ComputesSums};
ghost use Rattle.example_plan.specs.Words.{ComputesWords};

/// The blocks of a control loop, the size of its tables, and the words of its slots.
pub fn control_loop()
    ensures open { ComputesPlan }
    ensures policies { ComputesOtherPolicies }
    ensures closed { ComputesClosedPlan }
{}

/// A region that stands in the tail of another's block, or in the gap behind a stack that stands lowest.
pub fn tails()
    ensures largest_first { ComputesTails }
    ensures stack_first { ComputesStackFirst }
{}

/// Sums that fit a memory and sums that pass it.
pub fn sums()
    ensures { ComputesSums }
{}

/// The words of regions for blocks of various sizes.
pub fn words()
    ensures { ComputesWords }
{}
