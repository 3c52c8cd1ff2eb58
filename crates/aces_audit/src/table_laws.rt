//! The law of slots: a function that does nothing, whose contract is the law.

ghost use Rattle.aces_audit.specs.Laws.{SlotsAreTold};

/// The line of a slot has the word of what the slot is.
pub fn slots()
    ensures { SlotsAreTold }
{}
