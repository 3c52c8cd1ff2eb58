//! What stands at a place of a text.

use ir_model::firmware::{BinOp, CmpOp};
use ir_model::token::{Keyword, Mark};

/// A token, or what stands where none begins.
#[derive(Clone, Copy)]
pub enum Token<'a> {
    /// A word that is not reserved, of any length.
    Name(&'a [u8]),
    /// A number, where 2^32 stands for each that is too wide.
    Number(u64),
    /// A reserved word.
    Key(Keyword),
    /// An operation.
    Operation(BinOp),
    /// A comparison.
    Comparison(CmpOp),
    /// A mark.
    Mark(Mark),
    /// A byte that begins no token.
    Bad,
    /// The end of the text.
    End,
}
