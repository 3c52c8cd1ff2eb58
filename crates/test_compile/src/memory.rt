//! What stands in the memory of the machine behind a run.

use crate::alike::Alike;
use aces_files::loading::image_of;
use anyhow::{Context, Result, bail};
use base_events::event::Event;
use base_outside::{MemFiles, MemSink};
use machine_devices::tape::Tape;
use machine_emulator::Machine;
use std::alloc::Global;
use test_files::bytes_of;

/// What RAM is filled with before a run, as the program's `run` does it.
const FILL: u8 = 0xA5;

/// Runs an image without recorded input for at most so many steps, and prints a line for all words one behind the other in the memory of
/// the machine that are the same: how many bytes the first and the last stand behind the address, and the word. The address is in
/// hexadecimal; so many words are looked at, and one at least.
///
/// # Errors
///
/// One of the words is no number, the image is not read, it has no memory there, a line is not printed, or memory ran out.
pub(crate) fn memory(
    alloc: Global,
    files: &mut MemFiles,
    out: &mut MemSink,
    image: &str,
    steps: &str,
    address: &str,
    count: &str,
) -> Result<()> {
    let address = u32::from_str_radix(address, 16)?;
    let count: u32 = count.parse()?;
    let machine = ran(alloc, files, image, steps.parse()?)?;
    let mut open = Alike::new(0, word_at(alloc, &machine, address)?);
    for k in 1..count {
        let place = k.saturating_mul(4);
        let word = word_at(alloc, &machine, address.saturating_add(place))?;
        open = open.take(alloc, out, place, word)?;
    }
    open.print(alloc, out)
}

/// The machine behind so many steps of an image.
fn ran(alloc: Global, files: &mut MemFiles, name: &str, steps: u64) -> Result<Machine> {
    let bytes = bytes_of(alloc, files, name)?;
    let Ok(image) = image_of(alloc, name, &bytes) else {
        bail!("no image");
    };
    let tape = Tape::empty(alloc, u32::try_from(image.windows.as_slice().len())?)?;
    let mut machine = Machine::start(alloc, &image, tape, FILL)?;
    let _end = machine.run(steps, &mut |_: &Event| true);
    Ok(machine)
}

/// The word at an address, in hexadecimal.
fn word_at(alloc: Global, machine: &Machine, address: u32) -> Result<String> {
    let word = word(machine, address).context("no memory there")?;
    Ok(format!(in alloc; "{word:08x}")?)
}

fn word(machine: &Machine, address: u32) -> Option<u32> {
    let low = machine.byte(address)?;
    let second = machine.byte(address.checked_add(1)?)?;
    let third = machine.byte(address.checked_add(2)?)?;
    let high = machine.byte(address.checked_add(3)?)?;
    Some(u32::from_le_bytes([low, second, third, high]))
}
