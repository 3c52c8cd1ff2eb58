//! What holds of plans by a policy: functions that do nothing, whose contract is the law.

ghost use Rattle.plan_firmwares.specs.Laws.{RefusalsAndPlansExclude, RefusalsAreOne};

use plan::laws::one_answer;
use plan_compartments::laws::needs_are_one;

/// A firmware that has a plan for a board by a policy is refused for want of memory alone.
pub fn refusals_and_plans_exclude()
    ensures { RefusalsAndPlansExclude }
{
    needs_are_one();
    one_answer();
}

/// A firmware that is refused for a board by a policy is refused for one reason, but for want of memory.
pub fn refusals_are_one()
    ensures { RefusalsAreOne }
{
    needs_are_one();
    one_answer();
}
