//! Modes. The function is a law and does nothing.

ghost use Rattle.monitor_handlers.specs.Modes.{ListsKeepTheMode};

/// A list of privileged steps ends in the mode in which it begins: what a handler runs before its return stays in Handler mode.
pub fn lists_keep_the_mode()
    ensures { ListsKeepTheMode }
{}
