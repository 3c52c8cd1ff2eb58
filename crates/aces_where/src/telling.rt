//! The lines by the bytes of both files.

ghost use Rattle.std.specs.Prelude.{◌≡◌, ◌≤◌, ℕ, List, None, length, IfOk, IfErr};
ghost use Rattle.ir_model.specs.Plain.{firmware_of};
ghost use Rattle.ir_model.specs.Resolve.{resolve};
ghost use Rattle.ir_model.specs.State.{start};
ghost use Rattle.ir_program.specs.Seen.{program_of};
ghost use Rattle.aces_words.specs.Requests.{file_limit, firmware_limit};
ghost use Rattle.aces_files.specs.Loads.{IsRefusal};
ghost use Rattle.aces_files.specs.Outcomes.{done};
ghost use Rattle.plan_compartments.specs.Analyses.{AreCompartmentsBy};
ghost use Rattle.aces_firmwares.specs.Firmwares.{IsFirmware};
ghost use Rattle.aces_where.specs.Answers.{WhereAnswer};
ghost use Rattle.aces_where.specs.Halts.{IsHalt, halt_lines};
ghost use Rattle.aces_where.specs.Runs.{AreLines};

use crate::place_lines;
use crate::running::{Halt, go, run_out};
use aces_files::loading::tape_of;
use aces_firmwares::reading::firmware_of;
use aces_firmwares::source::divided_program;
use aces_reports::Failure;
use ir_model::checked::Checked;
use ir_output::run_at_start;
use ir_program::peripherals::windows;
use ir_program::program::Program;
use machine_devices::tape::Tape;
use plan_model::Policy;
use std::alloc::{AllocError, Global};

/// How far a run of at most so many steps on a tape comes, in these compartments.
///
/// # Errors
///
/// There is no memory for it.
fn halt_of_run(
    alloc: Global,
    firmware: &Checked,
    program: &Program<'_>,
    compartments: &[u32],
    tape: Tape,
    steps: u32,
) -> Result<Halt, AllocError>
    requires { program_of program.now ≡ resolve (firmware_of firmware.now) }
    ensures { IfOk result (IsHalt (resolve (firmware_of firmware.now)) compartments.now steps (start (resolve (firmware_of firmware.now)) tape)) }
{
    let standing = Vec::from_slice(alloc, compartments)?;
    let mut run = run_at_start(alloc, firmware, program, standing, tape)?;
    run_out(&mut run, steps)
}

/// The lines of where a run stands at a halt, before the step that ended it.
///
/// # Errors
///
/// There is no memory for it.
fn lines_of(
    alloc: Global,
    firmware: &Checked,
    program: &Program<'_>,
    compartments: &[u32],
    tape: Tape,
    halt: Halt,
) -> Result<Vec<u8>, AllocError>
    requires { program_of program.now ≡ resolve (firmware_of firmware.now) }
    ensures { IfOk result (λ lines. lines.items ≡ halt_lines (firmware_of firmware.now) compartments.now tape halt) }
{
    let standing = Vec::from_slice(alloc, compartments)?;
    let mut run = run_at_start(alloc, firmware, program, standing, tape)?;
    go(&mut run, halt.going)?;
    place_lines(alloc, firmware.firmware(), &run, halt.made, halt.end)
}

/// The lines on a run of at most so many steps on a tape, in these compartments. A run that has ended holds its end
/// alone, so it is made a second time on the same tape, up to the step that ended it.
///
/// # Errors
///
/// There is no memory for it.
fn lines_on(
    alloc: Global,
    firmware: &Checked,
    program: &Program<'_>,
    compartments: &[u32],
    tape: Tape,
    again: Tape,
    steps: u32,
) -> Result<Vec<u8>, AllocError>
    requires program { program_of program.now ≡ resolve (firmware_of firmware.now) }
    requires again { again ≡ tape }
    ensures { IfOk result (λ lines. AreLines (firmware_of firmware.now) compartments.now tape steps lines.items) }
{
    let halt = halt_of_run(alloc, firmware, program, compartments, tape, steps)?;
    let lines = lines_of(alloc, firmware, program, compartments, again, halt)?;
    Ok(lines)
}

/// The lines by the bytes of a firmware and of a tape, each behind its name. No file is touched.
pub(crate) fn where_by_bytes<'a>(
    alloc: Global,
    firmware: &'a str,
    policy: Policy,
    bytes: &[u8],
    tape: &'a str,
    text: &[u8],
    steps: u32,
) -> Result<Vec<u8>, Failure<'a>>
    requires firmware_fits { length bytes.now ≤ firmware_limit }
    requires tape_fits { length text.now ≤ file_limit }
    ensures ok { IfOk result (λ lines. WhereAnswer firmware.now policy tape.now steps bytes.now text.now (done 0 lines.items None)) }
    ensures err { IfErr result (IsRefusal (WhereAnswer firmware.now policy tape.now steps bytes.now text.now)) }
{
    let checked = firmware_of(alloc, firmware, bytes)?;
    where_checked(alloc, &checked, policy, tape, text, steps)
}

/// The same of a checked firmware, whatever file it was read from.
fn where_checked<'a>(
    alloc: Global,
    checked: &Checked,
    policy: Policy,
    tape: &'a str,
    text: &[u8],
    steps: u32,
) -> Result<Vec<u8>, Failure<'a>>
    requires { length text.now ≤ file_limit }
    ensures ok { (firmware bytes : List ℕ) → IsFirmware (firmware_of checked.now) bytes →
        IfOk result (λ lines. WhereAnswer firmware policy tape.now steps bytes text.now (done 0 lines.items None)) }
    ensures err { (firmware bytes : List ℕ) → IsFirmware (firmware_of checked.now) bytes →
        IfErr result (IsRefusal (WhereAnswer firmware policy tape.now steps bytes text.now)) }
{
    let windows = windows(alloc, checked.firmware().periphs.as_slice())?;
    let first = tape_of(alloc, tape, text, windows.as_slice())?;
    let second = tape_of(alloc, tape, text, windows.as_slice())?;
    let lines = lines_by(alloc, checked, policy, first, second, steps)?;
    Ok(lines)
}

/// The lines on a run of at most so many steps on a tape, in the compartments of a policy.
///
/// # Errors
///
/// There is no memory for it.
fn lines_by(
    alloc: Global,
    firmware: &Checked,
    policy: Policy,
    tape: Tape,
    again: Tape,
    steps: u32,
) -> Result<Vec<u8>, AllocError>
    requires { again ≡ tape }
    ensures { IfOk result (λ lines. (compartments : List ℕ) × AreCompartmentsBy policy (firmware_of firmware.now) compartments
        × AreLines (firmware_of firmware.now) compartments tape steps lines.items) }
{
    let divided = divided_program(alloc, firmware, policy)?;
    let lines = lines_on(
        alloc,
        firmware,
        &divided.program,
        divided.compartments.as_slice(),
        tape,
        again,
        steps,
    )?;
    Ok(lines)
}
