//! `why`: a firmware, read and checked, and what its loads, stores and calls may reach.

ghost use Rattle.std.specs.Prelude.{◌≤◌, length, None, IfOk, IfErr};
ghost use Rattle.aces_words.specs.Requests.{Why, firmware_limit};
ghost use Rattle.base_outside.specs.Sinks.{sink};
ghost use Rattle.aces_files.specs.CarriesOut.{CarriesOut};
ghost use Rattle.aces_files.specs.Loads.{IsContentFailure};
ghost use Rattle.aces_files.specs.Outcomes.{done};
ghost use Rattle.aces_firmwares.specs.Firmwares.{IsNoFirmware};
ghost use Rattle.aces_why.specs.Answers.{WhyAnswer, AnswerToWhy};

use crate::telling::reach_lines;
use aces_files::loading::load_firmware;
use aces_files::telling::print;
use aces_firmwares::reading::firmware_of;
use aces_reports::{Done, Failure};
use base_outside::{Files, Sink};
use std::alloc::Global;

/// The lines on the firmware of which these bytes of a file are the text.
fn reach_by_bytes<'a>(
    alloc: Global,
    firmware: &'a str,
    bytes: &[u8],
) -> Result<Vec<u8>, Failure<'a>>
    requires { length bytes.now ≤ firmware_limit }
    ensures ok { IfOk result (λ lines. WhyAnswer firmware.now bytes.now (done 0 lines.items None)) }
    ensures err { IfErr result (λ e. IsContentFailure (IsNoFirmware bytes.now) firmware.now e) }
{
    let checked = firmware_of(alloc, firmware, bytes)?;
    let lines = reach_lines(alloc, &checked)?;
    Ok(lines)
}

/// Reads and checks a firmware, and prints what each of its loads, stores and calls may reach, which registers stand for several
/// objects and are stored through, and the warnings.
pub fn why<'a, F: Files, O: Sink>(
    alloc: Global,
    firmware: &'a str,
    files: &mut F,
    out: &mut O,
) -> Result<Done, Failure<'a>>
    ensures { CarriesOut (AnswerToWhy firmware.now) F.Files files.old files.new (Why firmware.now) (sink O.Sink out.old) (sink O.Sink out.new) result }
{
    let bytes = load_firmware(alloc, files, firmware)?;
    let lines = reach_by_bytes(alloc, firmware, bytes.as_slice())?;
    print(lines.as_slice(), Done::Completed, out)
}
