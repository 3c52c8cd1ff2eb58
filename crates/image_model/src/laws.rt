//! Laws of the definitions: functions that do nothing, whose contract is the law.

ghost use Rattle.image_model.specs.Laws.{CountsAgree};

/// The tables have as many records and initial words as the size of the tables counts.
pub fn counts()
    ensures { CountsAgree }
{}
