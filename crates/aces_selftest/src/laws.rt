//! What self-tests of good runs answer: a function that does nothing, whose contract is the law.

ghost use Rattle.aces_selftest.specs.Laws.{GoodSelftestsAreSame};

use machine_model::resets::starts;
use plan_firmwares::laws::refusals_and_plans_exclude;

/// Where the image of a generated firmware is made, and its source meets no fault, stays within the stack and ends within its steps, the
/// answer is `same`.
pub fn good_selftests_are_same()
    ensures { GoodSelftestsAreSame }
{
    refusals_and_plans_exclude();
    starts();
}
