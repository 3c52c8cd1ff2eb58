//! What a text is refused for.

use ir_model::token::{Pos, TextLimit};

/// Why a text is not read.
#[derive(Debug, Drop, thiserror::Error)]
pub enum TextFault {
    /// The bytes are not UTF-8; the first bad sequence begins behind so many.
    #[error("not UTF-8 at byte {at}")]
    Utf8 {
        /// How many bytes stand before it.
        at: u32,
    },
    /// What stands there may not stand there.
    #[error("syntax")]
    Syntax {
        /// Where it stands.
        pos: Pos,
    },
    /// A number greater than 2^32 - 1, or less than -2^31.
    #[error("number too wide")]
    NumberTooWide {
        /// Where it stands.
        pos: Pos,
    },
    /// More than a limit allows.
    #[error("limit")]
    Limit {
        /// The limit.
        which: TextLimit,
        /// The place of the first token that passes it.
        pos: Pos,
    },
    /// Memory ran out.
    #[error("out of memory")]
    NoMemory,
}
