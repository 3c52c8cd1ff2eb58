//! The line of the frame of the exception that a handler serves.

ghost use Rattle.std.specs.Prelude.{◌≡◌, ◌+◌, ◌*◌, ◌%◌, ◌<◌, ◌^◌, ◌++◌, OnOk};
ghost use Rattle.base_ranges.specs.Ranges.{is_inside};
ghost use Rattle.monitor_model.specs.Values.{frame_size};
ghost use Rattle.aces_inspection.specs.MemoryLines as lines;

use crate::words_put::put_word;
use machine_emulator::Machine;
use machine_model::state::CoreRegisters;
use plan_report::text::Text;
use std::alloc::AllocError;

/// PSP.
fn process_stack(core: &CoreRegisters) -> u32
    ensures { result ≡ lines.process_stack core.now }
{
    if core.on_psp { core.sp } else { core.other_sp }
}

/// Whether a frame at an address lies in such a RAM.
fn is_in_ram(base: u32, ram_base: u32, ram_size: u32) -> bool
    ensures { result ≡ is_inside base frame_size ram_base ram_size }
{
    let first = u64::from(ram_base);
    let base = u64::from(base);
    first <= base && base + 32 <= first + u64::from(ram_size)
}

/// Puts a word of the frame behind its name.
fn put_framed(
    text: &mut Text,
    machine: &Machine,
    name: &[u8],
    base: u32,
    number: u32,
) -> Result<(), AllocError>
    requires aligned { base % 4 ≡ 0 }
    requires low { base + 4 * number < 2 ^ 32 }
    requires number { number < 8 }
    ensures { OnOk result (text.new ≡ text.old ++ lines.framed machine.now.image machine.now.state name.now base number) }
{
    put_word(text, name, machine.word(base + 4 * number))
}

/// Puts the words of the frame that are r0 to r12.
#[tactic(auto, unfolding(crate::specs::MemoryLines::frame_registers))]
fn put_registers(text: &mut Text, machine: &Machine, base: u32) -> Result<(), AllocError>
    requires aligned { base % 4 ≡ 0 }
    requires low { base + 32 < 2 ^ 32 }
    ensures { OnOk result (text.new ≡ text.old ++ lines.frame_registers machine.now.image machine.now.state base) }
{
    put_framed(text, machine, b" r0", base, 0)?;
    put_framed(text, machine, b" r1", base, 1)?;
    put_framed(text, machine, b" r2", base, 2)?;
    put_framed(text, machine, b" r3", base, 3)?;
    put_framed(text, machine, b" r12", base, 4)
}

/// Puts the words of the frame at an address.
#[tactic(auto, unfolding(crate::specs::MemoryLines::frame_text))]
fn put_words(text: &mut Text, machine: &Machine, base: u32) -> Result<(), AllocError>
    requires aligned { base % 4 ≡ 0 }
    requires low { base + 32 < 2 ^ 32 }
    ensures { OnOk result (text.new ≡ text.old ++ lines.frame_text machine.now.image machine.now.state base) }
{
    put_word(text, b"frame", base)?;
    put_framed(text, machine, b" pc", base, 6)?;
    put_framed(text, machine, b" lr", base, 5)?;
    put_framed(text, machine, b" psr", base, 7)?;
    put_registers(text, machine, base)?;
    text.put(b"\n")
}

/// Puts the line of the frame, in a handler whose frame lies in RAM.
#[tactic(auto, using(crate::proofs::Placed::frame_low, crate::proofs::Placed::frame_aligned), unfolding(crate::specs::MemoryLines::frame_line))]
pub(crate) fn put_frame(text: &mut Text, machine: &Machine) -> Result<(), AllocError>
    ensures { OnOk result (text.new ≡ text.old ++ lines.frame_line machine.now.image machine.now.state) }
{
    let image = machine.image();
    let base = process_stack(&machine.core());
    if machine.is_handler() && is_in_ram(base, image.ram_base, image.ram_size) {
        put_words(text, machine, base)
    } else {
        Ok(())
    }
}
