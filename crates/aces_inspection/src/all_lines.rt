//! All lines of a machine.

ghost use Rattle.std.specs.Prelude.{◌≡◌, ◌++◌, IfOk, OnOk};
ghost use Rattle.aces_inspection.specs.StateLines as lines;

use crate::blocks::put_block;
use crate::core_lines::{put_core, put_faults, put_mode, put_registers};
use crate::frames::put_frame;
use crate::units::{put_regions, put_unit};
use crate::words_put::put_number;
use machine_emulator::Machine;
use machine_lines::end_line;
use machine_model::state::End;
use plan_report::text::Text;
use std::alloc::{AllocError, Global};

/// Puts the lines on the steps, and on how they ended.
fn put_end(text: &mut Text, machine: &Machine, steps: u32) -> Result<(), AllocError>
    ensures { OnOk result (text.new ≡ text.old ++ lines.run_lines steps machine.now.state) }
{
    put_number(text, b"steps ", steps)?;
    text.put(b"\n")?;
    text.put(end_line(&machine.ending().unwrap_or(End::Limit)).as_slice())
}

/// Puts the lines of the core and of memory.
#[tactic(auto, unfolding(crate::specs::StateLines::held_lines))]
fn put_held(text: &mut Text, machine: &Machine) -> Result<(), AllocError>
    ensures { OnOk result (text.new ≡ text.old ++ lines.held_lines machine.now.image machine.now.state) }
{
    let core = machine.core();
    put_core(text, &core)?;
    put_registers(text, &core)?;
    put_mode(text, machine)?;
    put_frame(text, machine)?;
    put_faults(text, &machine.status())?;
    put_block(text, machine)
}

/// Puts all lines.
fn put_all(text: &mut Text, machine: &mut Machine, steps: u32) -> Result<(), AllocError>
    ensures { OnOk result (text.new ≡ text.old ++ lines.state_lines machine.old.image steps machine.old.state) }
{
    put_end(text, machine, steps)?;
    put_held(text, machine)?;
    put_unit(text, machine.mpu())?;
    let count = machine.image().regions as u8;
    put_regions(text, machine, count)
}

/// What a machine holds after so many steps, line by line. Its registers are read as software reads them, so that a region of
/// its protection unit stays selected.
///
/// # Errors
///
/// Only for want of memory.
pub fn state_lines(alloc: Global, machine: &mut Machine, steps: u32) -> Result<Vec<u8>, AllocError>
    ensures { IfOk result (λ all. all.items ≡ lines.state_lines machine.old.image steps machine.old.state) }
{
    let mut text = Text::new(alloc);
    put_all(&mut text, machine, steps)?;
    Ok(text.into_bytes())
}
