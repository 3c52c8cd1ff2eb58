//! `run`: an image, run on recorded device input.

ghost use Rattle.std.specs.Prelude.{◌≡◌, ◌≤◌, ℕ, Bool, Ok, length};
ghost use Rattle.aces_words.specs.Requests.{Run, file_limit};
ghost use Rattle.aces_files.specs.Known.{Held};
ghost use Rattle.aces_files.specs.Answers.{RunAnswer, AnswerToRun};
ghost use Rattle.machine_output.specs.Runs.{end_status};
ghost use Rattle.base_outside.specs.Sinks.{sink};
ghost use Rattle.aces_reports.specs.Ends.{status_of};
ghost use Rattle.aces_files.specs.CarriesOut.{CarriesOut};
ghost use Rattle.aces_files.specs.Effects.{Does};

use crate::loading::{image_of, load_both, tape_of};
use aces_reports::{Done, Failure};
use base_outside::{Files, Sink};
use machine_emulator::Machine;
use machine_model::state::End;
use machine_output::print_run;
use std::alloc::Global;

/// What RAM is filled with before a run.
pub const FILL: u8 = 0xA5;

/// Runs an image on a tape for at most so many machine steps, and prints the events and the end.
pub fn run<'a, F: Files, O: Sink>(
    alloc: Global,
    image: &'a str,
    tape: &'a str,
    steps: u32,
    files: &mut F,
    out: &mut O,
) -> Result<Done, Failure<'a>>
    ensures { CarriesOut (AnswerToRun image.now tape.now steps) F.Files files.old files.new (Run image.now tape.now steps) (sink O.Sink out.old) (sink O.Sink out.new) result }
{
    let both = load_both(alloc, files, image, tape)?;
    run_texts(
        alloc,
        image,
        both.first.as_slice(),
        tape,
        both.second.as_slice(),
        steps,
        out,
    )
}

/// The same on the bytes of both files, each behind its name. No file is touched.
fn run_texts<'a, O: Sink>(
    alloc: Global,
    image: &'a str,
    bytes: &[u8],
    tape: &'a str,
    text: &[u8],
    steps: u32,
    out: &mut O,
) -> Result<Done, Failure<'a>>
    requires { length text.now ≤ file_limit }
    ensures { (told : Bool) (held : Held) (reads writes : ℕ) → Does
        (RunAnswer image.now tape.now steps bytes.now text.now) (Run image.now tape.now steps)
        (record { told = told; held = held; read_faults = reads; write_faults = writes; out = sink O.Sink out.old })
        (record { told = told; held = held; read_faults = reads; write_faults = writes; out = sink O.Sink out.new })
        result }
{
    let image_read = image_of(alloc, image, bytes)?;
    let tape_read = tape_of(alloc, tape, text, image_read.windows.as_slice())?;
    let mut machine = Machine::start(alloc, &image_read, tape_read, FILL)?;
    match print_run(&mut machine, &image_read, steps, out) {
        Ok(end) => Ok(done(end)),
        Err(_) => Err(Failure::Unprinted),
    }
}

/// The outcome of a run's end.
fn done(end: End) -> Done
    ensures { status_of (Ok result) ≡ end_status end }
{
    match end {
        End::Halt(0) | End::InputEnd | End::Limit | End::Refused => Done::Completed,
        End::Halt(_) | End::Stop { .. } => Done::RunFailed,
    }
}
