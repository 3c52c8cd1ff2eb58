//! The lines of the core.

ghost use Rattle.std.specs.Prelude.{◌≡◌, ◌<◌, ◌++◌, codes, OnOk, if◌then◌else◌};
ghost use Rattle.aces_inspection.specs.CoreLines as lines;

use crate::words_put::put_word;
use base_words::conditions::Flags;
use machine_emulator::Machine;
use machine_model::CFSR;
use machine_model::state::{CoreRegisters, FaultStatus};
use plan_report::text::Text;
use std::alloc::AllocError;

/// Puts the letter of a flag, or `-` where it is not set.
fn put_flag(text: &mut Text, letter: &[u8], is_set: bool) -> Result<(), AllocError>
    ensures { OnOk result (text.new ≡ text.old ++ lines.flag_text letter.now is_set) }
{
    text.put(if is_set { letter } else { b"-" })
}

/// Puts all flags.
#[tactic(auto, unfolding(crate::specs::CoreLines::flags_text))]
fn put_flags(text: &mut Text, flags: &Flags) -> Result<(), AllocError>
    ensures { OnOk result (text.new ≡ text.old ++ lines.flags_text flags.now) }
{
    put_flag(text, b"N", flags.negative)?;
    put_flag(text, b"Z", flags.is_zero)?;
    put_flag(text, b"C", flags.carry)?;
    put_flag(text, b"V", flags.overflow)
}

/// Puts the line of the registers that direct a program.
#[tactic(auto, unfolding(crate::specs::CoreLines::core_line))]
pub(crate) fn put_core(text: &mut Text, core: &CoreRegisters) -> Result<(), AllocError>
    ensures { OnOk result (text.new ≡ text.old ++ lines.core_line core.now) }
{
    put_word(text, b"pc", core.pc)?;
    put_word(text, b" sp", core.sp)?;
    put_word(text, b" other", core.other_sp)?;
    put_word(text, b" lr", core.lr)?;
    text.put(b" flags ")?;
    put_flags(text, &core.flags)?;
    text.put(b"\n")
}

/// Puts a register with its number.
fn put_register(text: &mut Text, core: &CoreRegisters, number: u8) -> Result<(), AllocError>
    ensures { OnOk result (text.new ≡ text.old ++ lines.register_text core.now number) }
{
    text.put(b"r")?;
    text.put_decimal(u64::from(number))?;
    text.put(b" 0x")?;
    text.put_hexadecimal(8, core.register(number))
}

/// Puts a register behind a space.
fn put_next(text: &mut Text, core: &CoreRegisters, number: u8) -> Result<(), AllocError>
    ensures { OnOk result (text.new ≡ text.old ++ (codes " " ++ lines.register_text core.now number)) }
{
    text.put(b" ")?;
    put_register(text, core, number)
}

/// Puts the registers r1 to r12.
#[tactic(auto, unfolding(crate::specs::CoreLines::registers_behind))]
fn put_behind(text: &mut Text, core: &CoreRegisters) -> Result<(), AllocError>
    ensures { OnOk result (text.new ≡ text.old ++ lines.registers_behind core.now) }
{
    for i in 0..12u8 {
        put_next(text, core, 1 + i)?;
    }
    Ok(())
}

/// Puts the line of the registers r0 to r12.
#[tactic(auto, unfolding(crate::specs::CoreLines::register_line))]
pub(crate) fn put_registers(text: &mut Text, core: &CoreRegisters) -> Result<(), AllocError>
    ensures { OnOk result (text.new ≡ text.old ++ lines.register_line core.now) }
{
    put_register(text, core, 0)?;
    put_behind(text, core)?;
    text.put(b"\n")
}

/// The word for the mode.
fn mode_word(is_handler: bool) -> &'static [u8]
    ensures { result.now ≡ (if is_handler then codes "mode handler " else codes "mode thread ") }
{
    if is_handler {
        b"mode handler "
    } else {
        b"mode thread "
    }
}

/// The word for the privilege of instructions.
fn privilege_word(is_privileged: bool) -> &'static [u8]
    ensures { result.now ≡ (if is_privileged then codes "privileged " else codes "unprivileged ") }
{
    if is_privileged {
        b"privileged "
    } else {
        b"unprivileged "
    }
}

/// The word for the stack pointer in use.
fn stack_word(is_process: bool) -> &'static [u8]
    ensures { result.now ≡ (if is_process then codes "process" else codes "main") }
{
    if is_process { b"process" } else { b"main" }
}

/// Puts the line of the mode.
#[tactic(auto, unfolding(crate::specs::CoreLines::mode_line))]
pub(crate) fn put_mode(text: &mut Text, machine: &Machine) -> Result<(), AllocError>
    ensures { OnOk result (text.new ≡ text.old ++ lines.mode_line machine.now.state) }
{
    text.put(mode_word(machine.is_handler()))?;
    text.put(privilege_word(machine.privileged()))?;
    text.put(stack_word(machine.core().on_psp))?;
    text.put(b"\n")
}

/// Puts the line of the faults, where there are any.
#[tactic(auto, unfolding(crate::specs::CoreLines::fault_line, machine_model::specs::System::read_status))]
pub(crate) fn put_faults(text: &mut Text, status: &FaultStatus) -> Result<(), AllocError>
    ensures { OnOk result (text.new ≡ text.old ++ lines.fault_line status.now) }
{
    let causes = status.read(CFSR);
    if causes == 0 {
        return Ok(());
    }
    put_word(text, b"fault cfsr", causes)?;
    put_word(text, b" address", status.mmfar)?;
    text.put(b"\n")
}
