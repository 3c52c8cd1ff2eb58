//! The two numbers in the page.

ghost use Rattle.std.specs.Prelude.{◌≡◌, ◌+◌, ◌≤◌, length};
ghost use Rattle.machine_thumb.specs.Decoded.{decoded};
ghost use Rattle.monitor_model.specs.FromFlash as flash;
ghost use Rattle.monitor_audit.specs.Moved.{low_of, high_of};

use crate::numbers::half;
use machine_thumb::Instr;
use machine_thumb_decoding::decode;

/// The register of a MOVW, and its number.
fn low(h1: u16, h2: u16) -> Option<(u8, u16)>
    ensures { result ≡ low_of (decoded h1 h2) }
{
    match decode(h1, h2) {
        Some((Instr::MoveWide { d, value }, _)) => Some((d, value)),
        _ => None,
    }
}

/// The register of a MOVT, and its number.
fn high(h1: u16, h2: u16) -> Option<(u8, u16)>
    ensures { result ≡ high_of (decoded h1 h2) }
{
    match decode(h1, h2) {
        Some((Instr::MoveTop { d, value }, _)) => Some((d, value)),
        _ => None,
    }
}

/// The word that MOVW and MOVT make of one register, and 0 where they do not stand there.
pub(crate) fn moved_word(bytes: &[u8], at: usize) -> u32
    requires { at + 8 ≤ length bytes.now }
    ensures { result ≡ flash.moved_word_at at bytes.now }
{
    let below = low(half(bytes, at), half(bytes, at + 2));
    let above = high(half(bytes, at + 4), half(bytes, at + 6));
    if let Some((d, value)) = below
        && let Some((e, top)) = above
        && d == e
    {
        return u32::from(value) + u32::from(top) * 0x1_0000;
    }
    0
}
