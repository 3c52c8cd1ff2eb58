//! What holds of needs: functions that do nothing, whose contract is the law.

ghost use Rattle.plan_compartments.specs.Laws.{NeedsAreOne, DivisionsAreOne};

/// A firmware has the needs by its least sets of objects on a board of a kind, and no others.
pub fn needs_are_one()
    ensures { NeedsAreOne }
{}

/// A policy makes the same compartments of a firmware for every board, whatever its kind.
pub fn divisions_are_one()
    ensures { DivisionsAreOne }
{}
