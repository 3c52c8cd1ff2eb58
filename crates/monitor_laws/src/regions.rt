//! The regions of a compartment. Each function is a law and does nothing.

ghost use Rattle.monitor_laws.specs.RegionsWritten.{TablesAreWritten, StackIsClosedAboveTop};

/// The steps that write a compartment's tables leave exactly its regions in the protection unit, for every number of slots
/// from 4 to 12; the stack is open below TOP, and closed from there on.
pub fn tables_are_written()
    ensures written { TablesAreWritten }
    ensures closed { StackIsClosedAboveTop }
{}
