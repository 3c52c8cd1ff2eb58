//! Resets. The function is a law and does nothing.

ghost use Rattle.machine_model.specs.Reset.{StartsAreResets};

use crate::running::shapes;

/// The state in which a machine is started is one that a reset may leave.
pub fn starts()
    ensures { StartsAreResets }
{
    shapes();
}
