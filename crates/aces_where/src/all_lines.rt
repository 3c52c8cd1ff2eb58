//! All lines.

ghost use Rattle.std.specs.Prelude.{◌≡◌, ◌++◌, Some, map, option_map, IfOk, OnOk};
ghost use Rattle.ir_model.specs.Plain.{firmware_of};
ghost use Rattle.ir_program.specs.Seen.{program_of};
ghost use Rattle.ir_program.specs.Values.{value_of};
ghost use Rattle.ir_run.specs.Reads.{spot_of, frames_of, registers_of};
ghost use Rattle.ir_output.specs.Ends.{seen_end};
ghost use Rattle.aces_where.specs.PlaceLines as lines;

use crate::frames::{put_at, put_registers, put_waiting};
use crate::meeting::met_value;
use crate::values::put_value;
use ir_model::firmware::Firmware;
use ir_output::ending::end_line;
use ir_program::program::Program;
use ir_program::value::Value;
use ir_run::outcome::SourceEnd;
use ir_run::reads::FramePlace;
use ir_run::run::SourceRun;
use plan_report::naming::put_periph;
use plan_report::text::Text;
use std::alloc::{AllocError, Global};

/// Puts the lines on the steps, and on how they ended.
fn put_run(text: &mut Text, steps: u32, end: Option<SourceEnd>) -> Result<(), AllocError>
    ensures { OnOk result (text.new ≡ text.old ++ lines.run_lines steps (seen_end end)) }
{
    text.put(b"steps ")?;
    text.put_decimal(u64::from(steps))?;
    text.put(b"\n")?;
    text.put(end_line(end))
}

/// Puts the line of a value that a fault met.
fn put_reached_value(text: &mut Text, firmware: &Firmware, value: Value) -> Result<(), AllocError>
    ensures { OnOk result (text.new ≡ text.old ++ lines.reached_line (firmware_of firmware.now) (Some (value_of value))) }
{
    text.put(b"reached")?;
    put_value(text, firmware, value)?;
    text.put(b"\n")
}

/// Puts the line of the value that a fault met, where there is one.
fn put_reached(text: &mut Text, firmware: &Firmware, met: Option<Value>) -> Result<(), AllocError>
    ensures { OnOk result (text.new ≡ text.old ++ lines.reached_line (firmware_of firmware.now) (option_map value_of met)) }
{
    match met {
        Some(value) => put_reached_value(text, firmware, value),
        None => Ok(()),
    }
}

/// Puts the line of a peripheral that had no word left.
fn put_dry_periph(text: &mut Text, firmware: &Firmware, periph: u32) -> Result<(), AllocError>
    ensures { OnOk result (text.new ≡ text.old ++ lines.periph_line (firmware_of firmware.now) periph) }
{
    text.put(b"dry")?;
    put_periph(text, firmware, periph as usize)?;
    text.put(b"\n")
}

/// Puts the line of the peripheral that had no word left.
fn put_dry(text: &mut Text, firmware: &Firmware, met: Option<Value>) -> Result<(), AllocError>
    ensures { OnOk result (text.new ≡ text.old ++ lines.dry_line (firmware_of firmware.now) (option_map value_of met)) }
{
    match met {
        Some(Value::AtPeriph { periph, .. }) => put_dry_periph(text, firmware, periph),
        Some(Value::Number(_)) => Ok(()),
        Some(Value::Code(_)) => Ok(()),
        Some(Value::Null) => Ok(()),
        Some(Value::AtGlobal { .. }) => Ok(()),
        Some(Value::AtLocal { .. }) => Ok(()),
        None => Ok(()),
    }
}

/// Puts the line of the step that ended the run, where it has one.
fn put_last(
    text: &mut Text,
    firmware: &Firmware,
    end: Option<SourceEnd>,
    met: Option<Value>,
) -> Result<(), AllocError>
    ensures { OnOk result (text.new ≡ text.old ++ lines.last_line (firmware_of firmware.now) (seen_end end) (option_map value_of met)) }
{
    match end {
        Some(SourceEnd::Fault(_)) => put_reached(text, firmware, met),
        Some(SourceEnd::InputEnd) => put_dry(text, firmware, met),
        Some(SourceEnd::Returned) => Ok(()),
        None => Ok(()),
    }
}

/// Puts the lines of these places, the innermost first, where the innermost function's registers hold these values.
fn put_spots(
    text: &mut Text,
    firmware: &Firmware,
    program: &Program<'_>,
    end: Option<SourceEnd>,
    spots: &[FramePlace],
    registers: &[Value],
) -> Result<(), AllocError>
    ensures { OnOk result (text.new ≡ text.old ++ lines.spot_lines (firmware_of firmware.now) (program_of program.now) (seen_end end) spots.now (map value_of registers.now)) }
{
    match spots {
        [] => Ok(()),
        [spot, waiting @ ..] => {
            put_at(text, firmware, program, *spot)?;
            put_waiting(text, firmware, program, waiting)?;
            put_registers(text, firmware, spot.func, registers)?;
            put_last(text, firmware, end, met_value(program, *spot, registers))
        }
    }
}

/// Puts the lines of the places of a run.
fn put_left(
    text: &mut Text,
    firmware: &Firmware,
    run: &SourceRun<'_>,
    end: Option<SourceEnd>,
) -> Result<(), AllocError>
    ensures { OnOk result (text.new ≡ text.old ++ lines.spot_lines (firmware_of firmware.now) run.now.program (seen_end end) (map spot_of (frames_of run.now.state)) (registers_of (frames_of run.now.state))) }
{
    let spots = run.spots()?;
    let registers = run.registers();
    put_spots(
        text,
        firmware,
        run.program(),
        end,
        spots.as_slice(),
        registers,
    )
}

/// Puts the lines of where a run stands, by its end.
fn put_standing(
    text: &mut Text,
    firmware: &Firmware,
    run: &SourceRun<'_>,
    end: Option<SourceEnd>,
) -> Result<(), AllocError>
    ensures { OnOk result (text.new ≡ text.old ++ lines.standing_lines (firmware_of firmware.now) run.now.program (seen_end end) (frames_of run.now.state)) }
{
    match end {
        Some(SourceEnd::Returned) => Ok(()),
        Some(SourceEnd::InputEnd) => put_left(text, firmware, run, end),
        Some(SourceEnd::Fault(_)) => put_left(text, firmware, run, end),
        None => put_left(text, firmware, run, end),
    }
}

/// Puts all lines.
fn put_all(
    text: &mut Text,
    firmware: &Firmware,
    run: &SourceRun<'_>,
    steps: u32,
    end: Option<SourceEnd>,
) -> Result<(), AllocError>
    ensures { OnOk result (text.new ≡ text.old ++ lines.place_lines (firmware_of firmware.now) run.now.program steps (seen_end end) (frames_of run.now.state)) }
{
    put_run(text, steps, end)?;
    put_standing(text, firmware, run, end)
}

/// Where a run of a firmware stands, line by line, behind the number of steps made and their end. Where a step ended the run, it is to
/// stand before that step.
///
/// # Errors
///
/// Only for want of memory.
pub fn place_lines(
    alloc: Global,
    firmware: &Firmware,
    run: &SourceRun<'_>,
    steps: u32,
    end: Option<SourceEnd>,
) -> Result<Vec<u8>, AllocError>
    ensures { IfOk result (λ all. all.items ≡ lines.place_lines (firmware_of firmware.now) run.now.program steps (seen_end end) (frames_of run.now.state)) }
{
    let mut text = Text::new(alloc);
    put_all(&mut text, firmware, run, steps, end)?;
    Ok(text.into_bytes())
}
