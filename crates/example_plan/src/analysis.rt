//! What the functions of a firmware may reach, and the compartments that policies make of them.

ghost use Rattle.example_plan.specs.LentLocal.{HasLeastSets, HasNeeds, ComputesLoans};
ghost use Rattle.example_plan.specs.SelfCall.{HasSelfCall};
ghost use Rattle.example_plan.specs.ControlLoop.{ComputesPolicies};
ghost use Rattle.example_plan.specs.Limits.{ComputesLimits};

/// A local that is lent through two calls: the least sets of objects, the needs by them, and what they give.
pub fn lent_local()
    ensures sets { HasLeastSets }
    ensures needs { HasNeeds }
    ensures loans { ComputesLoans }
{}

/// A function that calls itself, with a local and a constant: the least sets of objects, and the needs by them.
pub fn self_call()
    ensures { HasSelfCall }
{}

/// The compartments of a control loop under the three policies, and its crossing sites.
pub fn policies()
    ensures { ComputesPolicies }
{}

/// Firmwares that pass a limit of what is compiled.
pub fn limits()
    ensures { ComputesLimits }
{}
