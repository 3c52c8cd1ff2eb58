//! Laws of needs: functions that do nothing, whose contract is the law.
#![tactic(auto)]

ghost use Rattle.need_laws.specs.Laws.{NoStepLeavesNeeds, RunningFrameStaysInNeeds, CallsStayInside, FramesAreGrouped, WaitingFramesReach, FramesAreOwn, OtherLocalsAreLendable, LendableLocalsHaveNumbers, LeastSetsHaveObjects};
ghost use Rattle.need_laws.specs.Checked.{LeastSetsServe};

use ir_laws::runs::{accesses as frame_accesses, values};
use ir_laws::typing::places;

/// No step of a run of a typed firmware reaches more than the needs by closed sets list.
pub fn runs()
    ensures { NoStepLeavesNeeds }
{
    values();
}

/// What the running frame is about to load, store or call is listed.
pub fn accesses()
    ensures { RunningFrameStaysInNeeds }
{
    frame_accesses();
}

/// A call that is no crossing site stays in its compartment, and each frame that waits at such a call stands in the compartment of the next.
pub fn compartments()
    ensures calls { CallsStayInside }
    ensures frames { FramesAreGrouped }
{}

/// A function that waits reaches the one that it waits for. So a function with two frames reaches itself.
pub fn frames()
    ensures waiting { WaitingFramesReach }
    ensures own { FramesAreOwn }
{}

/// A local that is not lendable is reached in its own running frame alone, and one that is lendable has a number.
pub fn locals()
    ensures own { OtherLocalsAreLendable }
    ensures numbered { LendableLocalsHaveNumbers }
{}

/// The least sets of a typed program have objects of the program alone, so needs may be made by them.
pub fn least_sets()
    ensures objects { LeastSetsHaveObjects }
    ensures serve { LeastSetsServe }
{
    places();
}
