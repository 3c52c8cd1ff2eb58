//! The typing of a firmware at each place, over numbers.

ghost use Rattle.ir_laws.specs.Typed.{TypedOverNumbers};

/// Each instruction and each block's end of a firmware that passes the checks and is within the limits fits the types of its
/// registers once names are numbers; initial values fit their cells; `main` is there, without parameters and result.
pub fn places()
    ensures { TypedOverNumbers }
{}
