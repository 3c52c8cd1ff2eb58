//! Reading an image file, field by field.

ghost use Rattle.std.specs.Prelude.{◌≡◌, ◌+◌, ◌*◌, ◌<◌, ◌≤◌, ◌^◌, [], length, IfOk, IfErr, OnOk, Some, None, slice_range, ◌⊎◌};
ghost use Rattle.std.specs.Result.{result_err};
ghost use Rattle.machine_devices.specs.Rules.{window_limit, memory_limit};
ghost use Rattle.machine_image.specs.Faults as faults;
ghost use Rattle.machine_image.specs.Parts as parts;
ghost use Rattle.machine_image.specs.Parts.{number, window_at, windows_from, behind_windows, spelled_image};
ghost use Rattle.machine_image.specs.declared.fault.ImageFault.TheVariants.{NoMemory};

use crate::fault::ImageFault;
use crate::fields::{
    BASIC_VERSION, MAGIC, PROTECTION_VERSION, read_number, require, require_end, require_whole,
};
use crate::rules;
use base_lists::ListVec;
use machine_devices::image::{Image, Window};
use machine_devices::limits::WINDOW_LIMIT;
use std::alloc::Global;

/// The memories of an image.
#[derive(Clone, Copy)]
struct Memories {
    flash_base: u32,
    flash_length: u32,
    ram_base: u32,
    ram_size: u32,
}

/// The places in RAM that an image names.
#[derive(Clone, Copy)]
struct RamAddresses {
    monitor: u32,
    stack_base: u32,
    stack_size: u32,
}

/// What an image tells of its board's protection unit, and where its windows begin.
#[derive(Clone, Copy)]
struct Protection {
    regions: u32,
    closed: bool,
    windows_at: u32,
}

#[tactic(auto, using(crate::proofs::Steps::steps), unfolding(crate::specs::Faults::start_checks, crate::specs::Faults::magic_check, crate::specs::Faults::version_check))]
fn read_start(bytes: &[u8]) -> Result<u32, ImageFault>
    ensures faults { result_err result ≡ faults.first_of (faults.start_checks bytes.now) }
    ensures version { IfOk result (λ version. version ≡ number bytes.now 4) }
{
    require_whole(bytes, 0, 4)?;
    if !rules::is_text(&bytes[0..4], MAGIC) {
        return Err(ImageFault::Magic);
    }
    let found = read_number(bytes, 4)?;
    if found != BASIC_VERSION && found != PROTECTION_VERSION {
        return Err(ImageFault::Version { found });
    }
    Ok(found)
}

#[tactic(auto, using(crate::proofs::Steps::steps), unfolding(crate::specs::Faults::memory_checks))]
fn read_memories(bytes: &[u8]) -> Result<Memories, ImageFault>
    ensures faults { result_err result ≡ faults.first_of (faults.memory_checks bytes.now) }
    ensures values { IfOk result (λ m. (m.flash_base ≡ number bytes.now 8)
        × (m.flash_length ≡ number bytes.now 12) × (m.ram_base ≡ number bytes.now 16)
        × (m.ram_size ≡ number bytes.now 20)) }
    ensures most { IfOk result (λ m. m.flash_length ≤ memory_limit) }
{
    let flash_base = read_number(bytes, 8)?;
    require(rules::is_flash_base(flash_base), 8)?;
    let flash_length = read_number(bytes, 12)?;
    require(rules::is_flash_length(flash_length), 12)?;
    let ram_base = read_number(bytes, 16)?;
    require(rules::is_ram_base(ram_base), 16)?;
    let ram_size = read_number(bytes, 20)?;
    require(rules::is_ram_size(ram_size), 20)?;
    Ok(Memories {
        flash_base,
        flash_length,
        ram_base,
        ram_size,
    })
}

#[tactic(auto, using(crate::proofs::Steps::steps), unfolding(crate::specs::Faults::place_checks))]
fn read_places(bytes: &[u8], memories: &Memories) -> Result<RamAddresses, ImageFault>
    requires base { memories.now.ram_base ≡ number bytes.now 16 }
    requires size { memories.now.ram_size ≡ number bytes.now 20 }
    ensures faults { result_err result ≡ faults.first_of (faults.place_checks bytes.now) }
    ensures values { IfOk result (λ p. (p.monitor ≡ number bytes.now 24)
        × (p.stack_base ≡ number bytes.now 28) × (p.stack_size ≡ number bytes.now 32)) }
{
    let (ram_base, ram_size) = (memories.ram_base, memories.ram_size);
    let monitor = read_number(bytes, 24)?;
    require(rules::is_monitor(monitor, ram_base, ram_size), 24)?;
    let stack_base = read_number(bytes, 28)?;
    let stack_size = read_number(bytes, 32)?;
    require(rules::is_stack_size(stack_size), 32)?;
    require(
        rules::is_stack_base(stack_base, stack_size, ram_base, ram_size),
        28,
    )?;
    Ok(RamAddresses {
        monitor,
        stack_base,
        stack_size,
    })
}

#[tactic(auto, using(crate::proofs::Steps::steps), unfolding(crate::specs::Faults::count_checks))]
fn read_count(bytes: &[u8]) -> Result<u32, ImageFault>
    ensures faults { result_err result ≡ faults.first_of (faults.count_checks bytes.now) }
    ensures value { IfOk result (λ n. n ≡ number bytes.now 36) }
    ensures most { IfOk result (λ n. n ≤ window_limit) }
{
    let count = read_number(bytes, 36)?;
    require(count <= WINDOW_LIMIT, 36)?;
    Ok(count)
}

#[tactic(auto, using(crate::proofs::Steps::steps), unfolding(crate::specs::Faults::protection_checks, crate::specs::Parts::regions, crate::specs::Parts::closed, crate::specs::Parts::windows_place))]
fn read_protection(bytes: &[u8], version: u32) -> Result<Protection, ImageFault>
    requires { version ≡ number bytes.now 4 }
    ensures faults { result_err result ≡ faults.first_of (faults.protection_checks bytes.now) }
    ensures values { IfOk result (λ p. (p.regions ≡ parts.regions bytes.now)
        × (p.closed ≡ parts.closed bytes.now) × (p.windows_at ≡ parts.windows_place bytes.now)) }
    ensures most { IfOk result (λ p. p.windows_at ≤ 48) }
{
    if version != PROTECTION_VERSION {
        return Ok(Protection {
            regions: 8,
            closed: false,
            windows_at: 40,
        });
    }
    let regions = read_number(bytes, 40)?;
    require(rules::is_regions(regions), 40)?;
    let word = read_number(bytes, 44)?;
    require(rules::is_closed_word(word, regions), 44)?;
    Ok(Protection {
        regions,
        closed: word == 1,
        windows_at: 48,
    })
}

#[tactic(auto, using(crate::proofs::Steps::steps), unfolding(crate::specs::Faults::range_checks))]
fn read_range(bytes: &[u8], at: u32, seen: &[Window]) -> Result<(u32, u32), ImageFault>
    requires { at < 2 ^ 31 }
    ensures faults { result_err result ≡ faults.first_of (faults.range_checks bytes.now at seen.now) }
    ensures values { IfOk result (λ r. (r.0 ≡ number bytes.now at) × (r.1 ≡ number bytes.now (at + 4))) }
{
    let base = read_number(bytes, at)?;
    let size = read_number(bytes, at + 4)?;
    require(rules::is_window_size(size), at + 4)?;
    require(rules::is_window_base(base, size, seen), at)?;
    Ok((base, size))
}

#[tactic(auto, using(crate::proofs::Steps::steps), unfolding(crate::specs::Faults::name_checks))]
fn read_name<'a>(bytes: &'a [u8], at: u32, seen: &[Window]) -> Result<&'a [u8], ImageFault>
    requires { at < 2 ^ 31 }
    ensures faults { result_err result ≡ faults.first_of (faults.name_checks bytes.now at seen.now) }
    ensures value { IfOk result (λ name. name.now ≡ (window_at bytes.now at).name) }
    ensures count { IfOk result (λ name. length name.now ≡ number bytes.now (at + 8)) }
    ensures most { OnOk result (number bytes.now (at + 8) ≤ 64) }
{
    let length = read_number(bytes, at + 8)?;
    require(rules::is_name_length(length), at + 8)?;
    require_whole(bytes, at + 12, length)?;
    let start = at as usize + 12;
    let name = &bytes[start..start + length as usize];
    require(rules::is_new_name(name, seen), at + 12)?;
    Ok(name)
}

#[tactic(auto, using(crate::proofs::Steps::steps), unfolding(crate::specs::Faults::window_checks))]
fn read_window(alloc: Global, bytes: &[u8], at: u32, seen: &[Window]) -> Result<Window, ImageFault>
    requires { at < 2 ^ 31 }
    ensures passed { OnOk result (faults.first_of (faults.window_checks bytes.now at seen.now) ≡ None) }
    ensures fault { IfErr result (faults.IsFirst (faults.window_checks bytes.now at seen.now)) }
    ensures value { IfOk result (λ w. w ≡ window_at bytes.now at) }
    ensures count { IfOk result (λ w. length w.name ≡ number bytes.now (at + 8)) }
    ensures most { OnOk result (number bytes.now (at + 8) ≤ 64) }
{
    let (base, size) = read_range(bytes, at, seen)?;
    let name = read_name(bytes, at, seen)?.to_vec(alloc)?;
    Ok(Window {
        name: ListVec::new(name),
        base,
        size,
    })
}

fn read_windows(
    alloc: Global,
    bytes: &[u8],
    start: u32,
    count: u32,
) -> Result<(Vec<Window>, u32), ImageFault>
    requires place { start ≤ 48 }
    requires few { count ≤ window_limit }
    ensures passed { OnOk result (faults.first_of (faults.windows_checks bytes.now start [] count) ≡ None) }
    ensures fault { IfErr result (faults.IsFirst (faults.windows_checks bytes.now start [] count)) }
    ensures windows { IfOk result (λ r. r.0.items ≡ windows_from bytes.now start count) }
    ensures place { IfOk result (λ r. r.1 ≡ behind_windows bytes.now start count) }
    ensures most { IfOk result (λ r. r.1 ≤ 48 + 76 * window_limit) }
{
    let mut windows = Vec::new(alloc);
    let mut at = start;
    for number in 0..count {
        let window = read_window(alloc, bytes, at, windows.as_slice())?;
        at += 12 + window.name.len() as u32;
        windows.push(window)?;
    }
    Ok((windows, at))
}

#[tactic(auto, using(crate::proofs::Steps::steps), unfolding(crate::specs::Faults::flash_checks))]
fn read_flash(alloc: Global, bytes: &[u8], at: u32, length: u32) -> Result<Vec<u8>, ImageFault>
    requires place { at < 2 ^ 31 }
    requires count { length ≡ number bytes.now 12 }
    requires most { length ≤ memory_limit }
    ensures passed { OnOk result (faults.first_of (faults.flash_checks bytes.now at) ≡ None) }
    ensures fault { IfErr result (faults.IsFirst (faults.flash_checks bytes.now at)) }
    ensures value { IfOk result (λ flash. flash.items ≡ slice_range bytes.now at (at + number bytes.now 12)) }
{
    require_whole(bytes, at, length)?;
    require_end(bytes, at + length)?;
    let start = at as usize;
    Ok(bytes[start..start + length as usize].to_vec(alloc)?)
}

#[tactic(auto, using(crate::proofs::Steps::steps), unfolding(crate::specs::Faults::first_fault, crate::specs::Parts::spelled_image))]
fn read_image(alloc: Global, bytes: &[u8]) -> Result<Image, ImageFault>
    ensures passed { OnOk result (faults.first_fault bytes.now ≡ None) }
    ensures fault { IfErr result (λ e. (e ≡ NoMemory) ⊎ (faults.first_fault bytes.now ≡ Some e)) }
    ensures value { IfOk result (λ i. i ≡ spelled_image bytes.now) }
{
    let version = read_start(bytes)?;
    let memories = read_memories(bytes)?;
    let places = read_places(bytes, &memories)?;
    let count = read_count(bytes)?;
    let protection = read_protection(bytes, version)?;
    let (windows, flash_at) = read_windows(alloc, bytes, protection.windows_at, count)?;
    let flash = read_flash(alloc, bytes, flash_at, memories.flash_length)?;
    Ok(Image {
        flash_base: memories.flash_base,
        flash: ListVec::new(flash),
        ram_base: memories.ram_base,
        ram_size: memories.ram_size,
        monitor: places.monitor,
        stack_base: places.stack_base,
        stack_size: places.stack_size,
        regions: protection.regions,
        closed: protection.closed,
        windows: ListVec::new(windows),
    })
}

/// Reads an image file: the image whose text the bytes are.
///
/// # Errors
///
/// The first fault in order of the bytes, or want of memory.
pub fn read(alloc: Global, bytes: &[u8]) -> Result<Image, ImageFault>
    ensures { faults.Reads bytes.now result }
{
    read_image(alloc, bytes)
}
