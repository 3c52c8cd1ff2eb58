//! The laws. Each function is a law and does nothing.

ghost use Rattle.plan_report.specs.Undeclared.{UndeclaredRangesAreExact};

/// A declared peripheral has each address of a range of peripherals that no line `undeclared` has, and none that such a line has.
pub fn undeclared_ranges_are_exact()
    ensures { UndeclaredRangesAreExact }
{}
