//! The law of these answers: a function that does nothing, whose contract is the law.

ghost use Rattle.image_promises.specs.PlannedAudits.{PlannedImagesAreAnsweredYes};

use crate::images::sound;
use monitor_audit::laws::answers as audit_answers;

/// The image of a planned firmware is answered yes, with the number of its compartments and that of its crossing sites.
pub fn answers()
    ensures { PlannedImagesAreAnsweredYes }
{
    sound();
    audit_answers();
}
