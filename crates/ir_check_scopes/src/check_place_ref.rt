//! Places in a firmware that is lent.

use base_names::Name;

/// Where a check is made.
#[derive(Clone, Copy)]
pub enum CheckPlaceRef<'a> {
    /// In a struct.
    Struct(&'a Name),
    /// In a peripheral.
    Periph(&'a Name),
    /// In a global.
    Global(&'a Name),
    /// In a file.
    File(&'a Name),
    /// In a function, before its instructions.
    Func(&'a Name),
    /// At an instruction or a block's end: the function, the label, and the number.
    Inst(&'a Name, &'a Name, u32),
    /// In no single part.
    Whole,
}
