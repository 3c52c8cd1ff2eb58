//! The lines of frames.

ghost use Rattle.std.specs.Prelude.{◌≡◌, ◌++◌, flat_map, map, OnOk};
ghost use Rattle.ir_model.specs.Plain.{firmware_of};
ghost use Rattle.ir_program.specs.Seen.{program_of};
ghost use Rattle.ir_program.specs.Values.{value_of};
ghost use Rattle.aces_where.specs.PlaceLines as lines;
ghost use Rattle.aces_where.specs.Spots as spots;

use crate::meeting::value_at;
use crate::values::put_value;
use ir_model::firmware::Firmware;
use ir_program::program::Program;
use ir_program::value::Value;
use ir_run::place::Here;
use ir_run::places::here;
use ir_run::reads::FramePlace;
use plan_report::naming::{put_func, put_label, put_register};
use plan_report::text::Text;
use std::alloc::AllocError;

/// Puts the number of an instruction in its block.
fn put_number(text: &mut Text, place: usize) -> Result<(), AllocError>
    ensures { OnOk result (text.new ≡ text.old ++ spots.number_text place) }
{
    text.put(b" instruction ")?;
    text.put_decimal(place as u64)
}

/// Puts the number of the instruction at which a frame stands, or that it stands at the block's end.
fn put_stand(text: &mut Text, program: &Program<'_>, spot: FramePlace) -> Result<(), AllocError>
    ensures { OnOk result (text.new ≡ text.old ++ spots.stand_text (spots.here_at (program_of program.now) spot) spot.place) }
{
    match here(program, spot.func, spot.block, spot.place) {
        Here::Does(_) => put_number(text, spot.place),
        Here::Ends(_) => text.put(b" end"),
    }
}

/// Puts the line of the place of a frame behind a word.
fn put_spot(
    text: &mut Text,
    firmware: &Firmware,
    program: &Program<'_>,
    word: &[u8],
    spot: FramePlace,
) -> Result<(), AllocError>
    ensures { OnOk result (text.new ≡ text.old ++ spots.spot_line (firmware_of firmware.now) (program_of program.now) word.now spot) }
{
    text.put(word)?;
    put_func(text, firmware, u32::from(spot.func))?;
    text.put(b" block ")?;
    put_label(text, firmware, u32::from(spot.func), spot.block)?;
    put_stand(text, program, spot)?;
    text.put(b"\n")
}

/// Puts the line of the place of the innermost frame.
pub(crate) fn put_at(
    text: &mut Text,
    firmware: &Firmware,
    program: &Program<'_>,
    spot: FramePlace,
) -> Result<(), AllocError>
    ensures { OnOk result (text.new ≡ text.old ++ lines.at_line (firmware_of firmware.now) (program_of program.now) spot) }
{
    put_spot(text, firmware, program, b"at ", spot)
}

/// Puts the line of the place of a frame that waits.
fn put_waits(
    text: &mut Text,
    firmware: &Firmware,
    program: &Program<'_>,
    spot: FramePlace,
) -> Result<(), AllocError>
    ensures { OnOk result (text.new ≡ text.old ++ lines.waits_line (firmware_of firmware.now) (program_of program.now) spot) }
{
    put_spot(text, firmware, program, b"waits ", spot)
}

/// Puts the lines of the places of the frames that wait.
pub(crate) fn put_waiting(
    text: &mut Text,
    firmware: &Firmware,
    program: &Program<'_>,
    waiting: &[FramePlace],
) -> Result<(), AllocError>
    ensures { OnOk result (text.new ≡ text.old ++ flat_map (lines.waits_line (firmware_of firmware.now) (program_of program.now)) waiting.now) }
{
    for i in 0..waiting.len() {
        put_waits(text, firmware, program, waiting[i])?;
    }
    Ok(())
}

/// Puts the line of a register.
fn put_register_line(
    text: &mut Text,
    firmware: &Firmware,
    func: u16,
    register: usize,
    value: Value,
) -> Result<(), AllocError>
    ensures { OnOk result (text.new ≡ text.old ++ lines.register_line (firmware_of firmware.now) func register (value_of value)) }
{
    text.put(b"reg ")?;
    put_register(text, firmware, u32::from(func), register)?;
    put_value(text, firmware, value)?;
    text.put(b"\n")
}

/// Puts the lines of the registers of a function.
pub(crate) fn put_registers(
    text: &mut Text,
    firmware: &Firmware,
    func: u16,
    registers: &[Value],
) -> Result<(), AllocError>
    ensures { OnOk result (text.new ≡ text.old ++ lines.register_lines (firmware_of firmware.now) func (map value_of registers.now)) }
{
    for register in 0..registers.len() {
        let value = value_at(registers, register);
        put_register_line(text, firmware, func, register, value)?;
    }
    Ok(())
}
