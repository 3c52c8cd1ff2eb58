//! `source`: the source of a firmware, run on recorded device input.

ghost use Rattle.std.specs.Prelude.{◌≡◌, ◌≤◌, ℕ, Bool, List, Ok, IfOk, length};
ghost use Rattle.ir_model.specs.Plain as plain;
ghost use Rattle.ir_model.specs.Resolve.{resolve};
ghost use Rattle.ir_program.specs.Seen.{program_of};
ghost use Rattle.plan_compartments.specs.Analyses.{AreCompartmentsBy};
ghost use Rattle.ir_output.specs.Ends.{seen_end};
ghost use Rattle.ir_output.specs.SourceRuns.{end_status};
ghost use Rattle.aces_words.specs.Requests.{Source, file_limit, firmware_limit};
ghost use Rattle.aces_files.specs.Known.{Held};
ghost use Rattle.aces_firmwares.specs.Answers.{SourceAnswer, AnswerToSource};
ghost use Rattle.aces_firmwares.specs.Firmwares.{IsFirmware};
ghost use Rattle.base_outside.specs.Sinks.{sink};
ghost use Rattle.aces_reports.specs.Ends.{status_of};
ghost use Rattle.aces_files.specs.CarriesOut.{CarriesOut};
ghost use Rattle.aces_files.specs.Effects.{Does};

use crate::reading::firmware_of;
use aces_files::loading::{load_firmware_and, tape_of};
use aces_reports::{Done, Failure};
use base_outside::{Files, Sink};
use ir_model::checked::Checked;
use ir_output::{Broken, print_source};
use ir_program::peripherals::windows;
use ir_program::program::Program;
use ir_run::outcome::SourceEnd;
use plan_firmwares::analyse;
use plan_model::Policy;
use std::alloc::{AllocError, Global};

/// Runs the source of a firmware on a tape for at most so many steps, in the compartments of a policy, and prints the events
/// and the end.
pub fn source<'a, F: Files, O: Sink>(
    alloc: Global,
    firmware: &'a str,
    policy: Policy,
    tape: &'a str,
    steps: u32,
    files: &mut F,
    out: &mut O,
) -> Result<Done, Failure<'a>>
    ensures { CarriesOut (AnswerToSource firmware.now policy tape.now steps) F.Files files.old files.new (Source firmware.now policy tape.now steps) (sink O.Sink out.old) (sink O.Sink out.new) result }
{
    let both = load_firmware_and(alloc, files, firmware, tape)?;
    source_texts(
        alloc,
        firmware,
        policy,
        both.first.as_slice(),
        tape,
        both.second.as_slice(),
        steps,
        out,
    )
}

/// A firmware as its source is run.
#[derive(Drop)]
pub struct DividedProgram<'a> {
    /// The firmware with numbers for its names.
    pub program: Program<'a>,
    /// The compartment of each of its functions.
    pub compartments: Vec<u32>,
}

/// A firmware with numbers for its names, and the compartment of each of its functions by a policy, by what its functions need on an open
/// board.
///
/// # Errors
///
/// There is no memory for it.
pub fn divided_program(
    alloc: Global,
    firmware: &Checked,
    policy: Policy,
) -> Result<DividedProgram<'_>, AllocError>
    ensures program { IfOk result (λ made. program_of made.program ≡ resolve (plain.firmware_of firmware.now)) }
    ensures compartments { IfOk result (λ made. AreCompartmentsBy policy (plain.firmware_of firmware.now) made.compartments.items) }
{
    let analysis = analyse(alloc, firmware, policy, false)?;
    let (program, _, groups) = analysis.into_parts();
    let compartments = groups.of.into_vec();
    Ok(DividedProgram {
        program,
        compartments,
    })
}

/// `source` on the bytes of both files, each behind its name. No file is touched.
fn source_texts<'a, O: Sink>(
    alloc: Global,
    firmware: &'a str,
    policy: Policy,
    bytes: &[u8],
    tape: &'a str,
    text: &[u8],
    steps: u32,
    out: &mut O,
) -> Result<Done, Failure<'a>>
    requires firmware_fits { length bytes.now ≤ firmware_limit }
    requires tape_fits { length text.now ≤ file_limit }
    ensures { (told : Bool) (held : Held) (reads writes : ℕ) → Does
        (SourceAnswer firmware.now policy tape.now steps bytes.now text.now) (Source firmware.now policy tape.now steps)
        (record { told = told; held = held; read_faults = reads; write_faults = writes; out = sink O.Sink out.old })
        (record { told = told; held = held; read_faults = reads; write_faults = writes; out = sink O.Sink out.new })
        result }
{
    let checked = firmware_of(alloc, firmware, bytes)?;
    source_checked(alloc, &checked, policy, tape, text, steps, out)
}

/// `source` of a checked firmware, whatever file it was read from.
fn source_checked<'a, O: Sink>(
    alloc: Global,
    checked: &Checked,
    policy: Policy,
    tape: &'a str,
    text: &[u8],
    steps: u32,
    out: &mut O,
) -> Result<Done, Failure<'a>>
    requires { length text.now ≤ file_limit }
    ensures { (firmware bytes : List ℕ) → IsFirmware (plain.firmware_of checked.now) bytes → (told : Bool) (held : Held) (reads writes : ℕ) → Does
        (SourceAnswer firmware policy tape.now steps bytes text.now) (Source firmware policy tape.now steps)
        (record { told = told; held = held; read_faults = reads; write_faults = writes; out = sink O.Sink out.old })
        (record { told = told; held = held; read_faults = reads; write_faults = writes; out = sink O.Sink out.new })
        result }
{
    let windows = windows(alloc, checked.firmware().periphs.as_slice())?;
    let tape_read = tape_of(alloc, tape, text, windows.as_slice())?;
    let divided = divided_program(alloc, checked, policy)?;
    let DividedProgram {
        program,
        compartments,
    } = divided;
    match print_source(
        alloc,
        checked,
        &program,
        windows.as_slice(),
        compartments,
        tape_read,
        steps,
        out,
    ) {
        Ok(end) => Ok(done(end)),
        Err(Broken::Unprinted) => Err(Failure::Unprinted),
        Err(Broken::NoMemory) => Err(Failure::NoMemory),
    }
}

/// The outcome of a run's end, or of a run of all its steps.
fn done(end: Option<SourceEnd>) -> Done
    ensures { status_of (Ok result) ≡ end_status (seen_end end) }
{
    match end {
        Some(SourceEnd::Fault(_)) => Done::RunFailed,
        Some(SourceEnd::Returned | SourceEnd::InputEnd) | None => Done::Completed,
    }
}
