//! Laws of the definitions: functions without a body, whose contract is the law.

ghost use Rattle.machine_image.specs.Text.{TextsAreUnique, ImagesHaveOneText};
ghost use Rattle.machine_image.specs.Faults.{TextsAreFaultless, FaultlessAreTexts, TextsAreRead};

/// No bytes are the text of two images, and each image that obeys the rules has exactly one text.
pub fn texts()
    ensures unique { TextsAreUnique }
    ensures one { ImagesHaveOneText }
{}

/// Bytes without a fault are the text of an image, and the text of an image has no fault, so that it is
/// read as that image unless memory runs out.
pub fn faults()
    ensures faultless { TextsAreFaultless }
    ensures texts { FaultlessAreTexts }
    ensures read { TextsAreRead }
{}
