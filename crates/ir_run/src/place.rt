//! What stands at a place of a function.

use ir_program::program::{Exit, Operation};

/// What stands at a place of a block.
#[derive(Drop)]
pub enum Here<'p, 'a> {
    /// An instruction.
    Does(&'p Operation<'a>),
    /// The end of the block.
    Ends(Exit),
}
