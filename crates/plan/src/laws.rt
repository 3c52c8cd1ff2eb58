//! Laws of planning: functions that do nothing, whose contract is the law.

ghost use Rattle.plan.specs.Laws.{PlansAreOne, PlansAreNotRefused, PlanningRefusalsAreOne};

use plan_graph::laws::final_graph_is_one;

/// A firmware is planned for a board in one way alone, and where it is planned, the one refusal is that there is no memory. Where it cannot be
/// planned, there is one other refusal at most.
pub fn one_answer()
    ensures one { PlansAreOne }
    ensures planned { PlansAreNotRefused }
    ensures refused { PlanningRefusalsAreOne }
{
    final_graph_is_one();
}
