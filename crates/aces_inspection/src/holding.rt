//! `state`: what a machine holds after a run.

ghost use Rattle.std.specs.Prelude.{◌≡◌, ◌≤◌, None, length, IfOk, IfErr};
ghost use Rattle.aces_words.specs.Requests.{State as ToState, file_limit};
ghost use Rattle.base_words.specs.Runs.{run};
ghost use Rattle.machine_model.specs.Step.{step};
ghost use Rattle.base_outside.specs.Sinks.{sink};
ghost use Rattle.aces_files.specs.CarriesOut.{CarriesOut};
ghost use Rattle.aces_files.specs.Loads.{IsRefusal};
ghost use Rattle.aces_files.specs.Outcomes.{done};
ghost use Rattle.aces_inspection.specs.Answers.{StateAnswer, AnswerToState, IsRunOut};

use crate::state_lines;
use aces_files::loading::{Both, image_of, load_both, tape_of};
use aces_files::run::FILL;
use aces_files::telling::print;
use aces_reports::{Done, Failure};
use base_outside::{Files, Sink};
use machine_emulator::Machine;
use std::alloc::Global;

/// Makes so many steps, or as many as it takes until the machine ends, and answers how many.
fn steps_made(machine: &mut Machine, most: u32) -> u32
    ensures run { IsRunOut machine.old.image most machine.old.state result }
    ensures image { machine.new.image ≡ machine.old.image }
    ensures state { machine.new.state ≡ run (step machine.old.image) result machine.old.state }
{
    for made in 0..most {
        match machine.ending() {
            Some(_) => return made,
            None => {}
        }
        let _ = machine.step();
    }
    most
}

/// The lines by the bytes of both files, which stand behind their names. No file is touched.
fn held_lines<'a>(
    alloc: Global,
    image: &'a str,
    tape: &'a str,
    both: &Both,
    steps: u32,
) -> Result<Vec<u8>, Failure<'a>>
    requires { length both.now.second.items ≤ file_limit }
    ensures ok { IfOk result (λ lines. StateAnswer image.now tape.now steps both.now.first.items both.now.second.items (done 0 lines.items None)) }
    ensures err { IfErr result (IsRefusal (StateAnswer image.now tape.now steps both.now.first.items both.now.second.items)) }
{
    let read = image_of(alloc, image, both.first.as_slice())?;
    let words = tape_of(alloc, tape, both.second.as_slice(), read.windows.as_slice())?;
    let mut machine = Machine::start(alloc, &read, words, FILL)?;
    let made = steps_made(&mut machine, steps);
    let lines = state_lines(alloc, &mut machine, made)?;
    Ok(lines)
}

/// Runs an image on a tape for at most so many machine steps, and prints what the machine then holds.
pub fn state<'a, F: Files, O: Sink>(
    alloc: Global,
    image: &'a str,
    tape: &'a str,
    steps: u32,
    files: &mut F,
    out: &mut O,
) -> Result<Done, Failure<'a>>
    ensures { CarriesOut (AnswerToState image.now tape.now steps) F.Files files.old files.new (ToState image.now tape.now steps)
        (sink O.Sink out.old) (sink O.Sink out.new) result }
{
    let both = load_both(alloc, files, image, tape)?;
    let lines = held_lines(alloc, image, tape, &both, steps)?;
    print(lines.as_slice(), Done::Completed, out)
}
