//! What goes over a program.

use ir_program::program::Program;
use need_sets::Numbering;

/// What goes over a program, and puts to rules what its places ask.
#[derive(Drop)]
pub(crate) struct Generator<'a> {
    /// The program.
    pub(crate) program: &'a Program<'a>,
    /// How its nodes and objects are numbered.
    pub(crate) numbering: Numbering,
}
