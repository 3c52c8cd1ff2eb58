//! The laws. Each function is a law and does nothing.

ghost use Rattle.aces_who.specs.Laws.{ExposuresAreExact};

/// The globals that are told as exposed are those that a compartment may write, or read, without need; and their bytes are together both
/// numbers of its line `exposed` in `list`.
pub fn exposures_are_exact()
    ensures { ExposuresAreExact }
{}
