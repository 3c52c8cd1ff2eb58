//! A law of the definitions: a function that does nothing, whose contract is the law.

ghost use Rattle.ir_text_places.specs.Laws.{ItemsBegin};

/// From the place of a fault on the tokens begin as what the fault names does: the struct, the peripheral, the global, the file, the function, or the
/// line of the instruction or of the block's end.
pub fn items_begin()
    ensures { ItemsBegin }
{}
