//! The laws. Each function is a law and does nothing.

ghost use Rattle.image_promises.specs.Needed.{PlannedMasksAreNeeded, PlannedPermissionsAreBounded};
ghost use Rattle.image_promises.specs.Policy.{PlannedRunsStayInPolicy};

use ir_laws::limits::windows;
use need_laws::runs;

/// One of its functions needs what a compartment may write: a global, where none is exposed; a lent local; and a peripheral, where no
/// ranges are joined.
pub fn permissions_are_bounded()
    ensures { PlannedPermissionsAreBounded }
{
    windows();
}

/// Each bit of a compartment's mask is that of a lent local which one of its functions may write.
pub fn masks_are_needed()
    ensures { PlannedMasksAreNeeded }
{}

/// No step of a run of the source leaves the policy: its function's compartment may write what it stores to, or that is a local of
/// that function; on a closed board the same of what it loads; and a call goes to a target of its site.
pub fn runs_stay_in_policy()
    ensures { PlannedRunsStayInPolicy }
{
    runs();
}
