//! Numbers in flash.

ghost use Rattle.std.specs.Prelude.{◌≡◌, ◌+◌, ◌≤◌, length};
ghost use Rattle.monitor_model.specs.FromFlash as flash;

use base_words::memory::{Width, read_value};

/// The word at an offset.
pub(crate) fn word(bytes: &[u8], at: usize) -> u32
    requires { at + 4 ≤ length bytes.now }
    ensures { result ≡ flash.word_at bytes.now at }
{
    read_value(bytes, at, Width::Word)
}

/// The halfword at an offset.
#[tactic(auto, unfolding(base_words::specs::Bytes::read))]
pub(crate) fn half(bytes: &[u8], at: usize) -> u16
    requires { at + 2 ≤ length bytes.now }
    ensures { result ≡ flash.half_at at bytes.now }
{
    u16::from_le_bytes([bytes[at], bytes[at + 1]])
}
