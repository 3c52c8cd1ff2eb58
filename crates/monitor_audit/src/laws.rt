//! Laws of the answers: functions that do nothing, whose contract is the law.

ghost use Rattle.monitor_audit.specs.Laws.{AnswersAreUnique, SoundImagesAreAnsweredYes};

/// An image has one answer, which is yes for each sound one, with the counts of its tables.
pub fn answers()
    ensures unique { AnswersAreUnique }
    ensures yes { SoundImagesAreAnsweredYes }
{}
