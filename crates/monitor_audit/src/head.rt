//! The eight words in front of the records.

ghost use Rattle.std.specs.Prelude.{◌≡◌, ◌<◌, ◌≤◌, ◌^◌, length};
ghost use Rattle.monitor_model.specs.Layout.{head_size};
ghost use Rattle.monitor_audit.specs.Heads.{IsHead, head_fails};

use crate::numbers::word;
use machine_devices::image::Image;
use plan_model::Spot;

/// The counts of the five kinds of record, and the places of the stack and of the monitor's block.
#[derive(Clone, Copy)]
pub(crate) struct Head {
    pub(crate) comps: u32,
    pub(crate) sites: u32,
    pub(crate) targets: u32,
    pub(crate) lends: u32,
    pub(crate) inits: u32,
    pub(crate) stack: Spot,
    pub(crate) monitor: u32,
}

/// The eight words at the beginning of these bytes.
pub(crate) fn read_head(bytes: &[u8]) -> Head
    requires { head_size ≤ length bytes.now }
    ensures { IsHead bytes.now result }
{
    Head {
        comps: word(bytes, 0),
        sites: word(bytes, 4),
        targets: word(bytes, 8),
        lends: word(bytes, 12),
        inits: word(bytes, 16),
        stack: Spot {
            base: word(bytes, 20),
            size: word(bytes, 24),
        },
        monitor: word(bytes, 28),
    }
}

/// The address of the first of the eight words that breaks its own rule.
pub(crate) fn head_fault(image: &Image, head: &Head) -> Option<u32>
    requires { image.now.flash_base < 2 ^ 31 }
    ensures { result ≡ head_fails image.now head.now }
{
    let at = image.flash_base + 4096;
    if head.comps < 1 || head.comps > 64 {
        return Some(at);
    }
    if head.sites > 4096 {
        return Some(at + 4);
    }
    if u64::from(head.targets) > 64 * u64::from(head.sites) {
        return Some(at + 8);
    }
    if head.lends > 32 {
        return Some(at + 12);
    }
    if head.stack.base != image.stack_base {
        return Some(at + 20);
    }
    if head.stack.size != image.stack_size {
        return Some(at + 24);
    }
    if head.monitor != image.monitor {
        return Some(at + 28);
    }
    None
}
