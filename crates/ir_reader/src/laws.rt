//! Laws of the definitions: functions that do nothing, whose contract is the law.

ghost use Rattle.ir_reader.specs.Laws.{TextsAreUnique, TextsOrFaults, TextsAreFaultless, FaultsAreSingle};

/// No bytes are a text of two firmwares, and bytes in UTF-8 are a text of a firmware or have a first fault.
pub fn texts()
    ensures unique { TextsAreUnique }
    ensures whole { TextsOrFaults }
{}

/// A text has no fault, and other bytes have one first fault at most.
pub fn faults()
    ensures texts { TextsAreFaultless }
    ensures single { FaultsAreSingle }
{}
