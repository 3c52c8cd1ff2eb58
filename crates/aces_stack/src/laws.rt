//! What holds of the answers by a policy: a function that does nothing, whose contract is the law.

ghost use Rattle.aces_stack.specs.Laws.{LimitsExclude};

use plan_compartments::laws::needs_are_one;

/// A firmware of which no limit is passed is not refused for a limit.
pub fn limits_exclude()
    ensures { LimitsExclude }
{
    needs_are_one();
}
