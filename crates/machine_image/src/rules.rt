//! The rules of the fields, as tests of their values.

ghost use Rattle.std.specs.Prelude.{◌≡◌, ◌<◌, ◌≤◌, IsTrue};
ghost use Rattle.std.specs.List.{list_any, list_all};
ghost use Rattle.std.specs.Str.{bytes_eq};
ghost use Rattle.base_ranges.specs.Ranges as ranges;
ghost use Rattle.machine_devices.specs.Rules.{memory_limit};
ghost use Rattle.machine_image.specs.Faults as faults;

use base_names::{NAME_LIMIT, is_name};
use base_ranges::{are_apart, is_inside, is_window_place};
use machine_devices::image::Window;
use machine_devices::limits::{
    self, BLOCK_SIZE, FIRST_RAM_BASE, LAST_FLASH_BASE, LAST_RAM_BASE, LEAST_FLASH, LEAST_RAM,
    MEMORY_LIMIT, RAM_UNIT,
};

/// Whether flash may begin there.
#[tactic(auto, unfolding(crate::specs::Faults::is_flash_base))]
pub fn is_flash_base(address: u32) -> bool
    ensures { result ≡ faults.is_flash_base address }
{
    address % MEMORY_LIMIT == 0 && address <= LAST_FLASH_BASE
}

/// Whether flash may have so many bytes.
#[tactic(auto, unfolding(crate::specs::Faults::is_flash_length))]
pub fn is_flash_length(length: u32) -> bool
    ensures test { result ≡ faults.is_flash_length length }
    ensures most { IsTrue result → length ≤ memory_limit }
{
    LEAST_FLASH <= length && length <= MEMORY_LIMIT && length % 4 == 0
}

/// Whether RAM may begin there.
#[tactic(auto, unfolding(crate::specs::Faults::is_ram_base))]
pub fn is_ram_base(address: u32) -> bool
    ensures { result ≡ faults.is_ram_base address }
{
    address % MEMORY_LIMIT == 0 && FIRST_RAM_BASE <= address && address <= LAST_RAM_BASE
}

/// Whether RAM may have so many bytes.
#[tactic(auto, unfolding(crate::specs::Faults::is_ram_size))]
pub fn is_ram_size(size: u32) -> bool
    ensures { result ≡ faults.is_ram_size size }
{
    size % RAM_UNIT == 0 && LEAST_RAM <= size && size <= MEMORY_LIMIT
}

/// Whether the monitor's block may stand there, or the address is the 0 of no monitor.
#[tactic(auto, unfolding(crate::specs::Faults::is_monitor))]
pub fn is_monitor(address: u32, ram_base: u32, ram_size: u32) -> bool
    ensures { result ≡ faults.is_monitor address ram_base ram_size }
{
    address == 0
        || (address % BLOCK_SIZE == 0 && is_inside(address, BLOCK_SIZE, ram_base, ram_size))
}

/// Whether the stack may have so many bytes, or the size is the 0 of no stack.
#[tactic(auto, unfolding(crate::specs::Faults::is_stack_size))]
pub fn is_stack_size(size: u32) -> bool
    ensures { result ≡ faults.is_stack_size size }
{
    size == 0 || limits::is_stack_size(size)
}

/// Whether a stack of this size may begin there.
#[tactic(auto, unfolding(crate::specs::Faults::is_stack_base))]
pub fn is_stack_base(address: u32, size: u32, ram_base: u32, ram_size: u32) -> bool
    ensures { result ≡ faults.is_stack_base address size ram_base ram_size }
{
    if size == 0 {
        address == 0
    } else {
        address % size == 0 && is_inside(address, size, ram_base, ram_size)
    }
}

/// Whether the protection unit may have so many regions.
#[tactic(auto, unfolding(crate::specs::Faults::is_regions))]
pub fn is_regions(count: u32) -> bool
    ensures { result ≡ faults.is_regions count }
{
    count == 8 || count == 16
}

/// Whether the word may tell if an image with so many regions is closed: an open one with 8 has no such word.
#[tactic(auto, unfolding(crate::specs::Faults::is_closed_word))]
pub fn is_closed_word(word: u32, regions: u32) -> bool
    ensures { result ≡ faults.is_closed_word word regions }
{
    word == 1 || (word == 0 && regions == 16)
}

/// Whether a window may have so many bytes.
#[tactic(auto, using(base_ranges::proofs::Decisions::size_is_some), unfolding(crate::specs::Faults::is_window_size))]
pub fn is_window_size(size: u32) -> bool
    ensures test { result ≡ faults.is_window_size size }
    ensures least { IsTrue result → 0 < size }
{
    base_ranges::is_window_size(size)
}

fn is_apart_from_all(address: u32, size: u32, seen: &[Window]) -> bool
    ensures { result ≡ list_all (λ w. ranges.are_apart w.base w.size address size) seen.now }
{
    seen.iter().all(|window| are_apart(window.base, window.size, address, size))
}

/// Whether a window of this size may begin there, behind other windows.
#[tactic(auto, unfolding(crate::specs::Faults::is_window_base))]
pub fn is_window_base(address: u32, size: u32, seen: &[Window]) -> bool
    requires { 0 < size }
    ensures { result ≡ faults.is_window_base address size seen.now }
{
    is_window_place(address, size) && is_apart_from_all(address, size, seen)
}

/// Whether a name may have so many bytes.
#[tactic(auto, unfolding(crate::specs::Faults::is_name_length))]
pub fn is_name_length(length: u32) -> bool
    ensures test { result ≡ faults.is_name_length length }
    ensures most { IsTrue result → length ≤ 64 }
{
    1 <= length && length as usize <= NAME_LIMIT
}

/// Whether some bytes are those of a text.
pub fn is_text(bytes: &[u8], text: &[u8]) -> bool
    ensures { result ≡ bytes_eq bytes.now text.now }
{
    bytes == text
}

fn has_name(seen: &[Window], name: &[u8]) -> bool
    ensures { result ≡ list_any (λ w. bytes_eq w.name name.now) seen.now }
{
    seen.iter()
        .any(|window| is_text(window.name.as_slice(), name))
}

/// Whether the bytes are a name that none of these windows has.
#[tactic(auto, unfolding(crate::specs::Faults::is_new_name))]
pub fn is_new_name(name: &[u8], seen: &[Window]) -> bool
    ensures { result ≡ faults.is_new_name name.now seen.now }
{
    is_name(name) && !has_name(seen, name)
}
