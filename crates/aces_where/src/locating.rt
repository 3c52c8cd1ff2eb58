//! `where`: a firmware, run from its source on recorded device input, and where the run stands.

ghost use Rattle.aces_words.specs.Requests.{Where as ToPlace};
ghost use Rattle.base_outside.specs.Sinks.{sink};
ghost use Rattle.aces_files.specs.CarriesOut.{CarriesOut};
ghost use Rattle.aces_where.specs.Answers.{AnswerToWhere};

use crate::telling::where_by_bytes;
use aces_files::loading::load_firmware_and;
use aces_files::telling::print;
use aces_reports::{Done, Failure};
use base_outside::{Files, Sink};
use plan_model::Policy;
use std::alloc::Global;

/// Runs the source of a firmware on a tape for at most so many steps, in the compartments of a policy, and prints where it then stands: its
/// place, the calls that wait, the registers of the innermost function, and what a fault met.
pub fn locate<'a, F: Files, O: Sink>(
    alloc: Global,
    firmware: &'a str,
    policy: Policy,
    tape: &'a str,
    steps: u32,
    files: &mut F,
    out: &mut O,
) -> Result<Done, Failure<'a>>
    ensures { CarriesOut (AnswerToWhere firmware.now policy tape.now steps) F.Files files.old files.new (ToPlace firmware.now policy tape.now steps)
        (sink O.Sink out.old) (sink O.Sink out.new) result }
{
    let both = load_firmware_and(alloc, files, firmware, tape)?;
    let lines = where_by_bytes(
        alloc,
        firmware,
        policy,
        both.first.as_slice(),
        tape,
        both.second.as_slice(),
        steps,
    )?;
    print(lines.as_slice(), Done::Completed, out)
}
