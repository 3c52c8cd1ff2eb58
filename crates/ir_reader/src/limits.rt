//! What a token passes.

ghost use Rattle.std.specs.Prelude.{◌≡◌};
ghost use Rattle.ir_model.specs.Lines as lines;
ghost use Rattle.ir_reader.specs.Reading.{Keeps};

use crate::error::{Fault, FaultKind, ReadError};
use ir_model::text_limits::{ARRAY_LIMIT, DEPTH_LIMIT, WORD_LIMIT};
use ir_model::token::{Excess, TextLimit};

/// Where so many of a kind stand before, and at most so many may.
pub fn count_excess(before: usize, most: usize, limit: TextLimit) -> Option<Excess>
    ensures { result ≡ lines.counted before most limit None }
{
    if before < most {
        None
    } else {
        Some(Excess::Passes(limit))
    }
}

/// A word of too many bytes.
pub fn word_excess(word: &[u8]) -> Option<Excess>
    ensures { result ≡ lines.word_excess word.now }
{
    if word.len() <= WORD_LIMIT {
        None
    } else {
        Some(Excess::Passes(TextLimit::Name))
    }
}

/// A number of more than 32 bits, or else something else.
pub fn number_excess(number: u64, otherwise: Option<Excess>) -> Option<Excess>
    ensures { result ≡ lines.number_excess number otherwise }
{
    if number < 1 << 32 {
        otherwise
    } else {
        Some(Excess::TooWide)
    }
}

/// An array's length of 0, or of too many elements.
pub fn length_excess(number: u64) -> Option<Excess>
    ensures { result ≡ lines.length_excess number }
{
    let excess = if 0 < number && number <= ARRAY_LIMIT {
        None
    } else {
        Some(Excess::Passes(TextLimit::Array))
    };
    number_excess(number, excess)
}

/// A type in too many others, or else something else.
pub fn depth_excess(around: u32, otherwise: Option<Excess>) -> Option<Excess>
    ensures { result ≡ lines.depth_excess around otherwise }
{
    if around < DEPTH_LIMIT {
        otherwise
    } else {
        Some(Excess::Passes(TextLimit::Depth))
    }
}

/// The first of two that there is.
pub fn or_else(first: Option<Excess>, second: Option<Excess>) -> Option<Excess>
    ensures { result ≡ lines.or_else first second }
{
    first.or(second)
}

/// Refuses a token that passes something, where so many bytes begin with it.
pub fn keep(excess: Option<Excess>, left: usize) -> Result<(), ReadError>
    ensures { Keeps excess left result }
{
    match excess {
        None => Ok(()),
        Some(excess) => Err(ReadError::Fault(Fault {
            kind: FaultKind::Exceeds(excess),
            left,
        })),
    }
}
