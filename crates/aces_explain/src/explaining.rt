//! `explain`: a firmware, read and checked, and what is wrong with it.

ghost use Rattle.std.specs.Prelude.{◌≡◌, ◌≤◌, length, IfOk, IfErr};
ghost use Rattle.aces_words.specs.Requests.{Explain as ToExplain, firmware_limit};
ghost use Rattle.base_outside.specs.Sinks.{sink};
ghost use Rattle.aces_reports.specs.declared.failure.Failure.TheVariants.{NoMemory as WantOfMemory};
ghost use Rattle.aces_files.specs.CarriesOut.{CarriesOut};
ghost use Rattle.aces_explain.specs.Answers.{AnswerToExplain};
ghost use Rattle.aces_explain.specs.Explained.{IsTold};

use crate::telling::tell;
use aces_files::loading::load_firmware;
use aces_files::telling::{CommandOutput, print};
use aces_reports::{Done, Failure};
use base_outside::{Files, Sink};
use std::alloc::Global;

/// The lines on the bytes of a firmware, and how the command ends.
fn lines_on<'a>(
    alloc: Global,
    firmware: &'a str,
    bytes: &[u8],
) -> Result<CommandOutput, Failure<'a>>
    requires { length bytes.now ≤ firmware_limit }
    ensures ok { IfOk result (IsTold firmware.now bytes.now) }
    ensures err { IfErr result (λ e. e ≡ WantOfMemory) }
{
    let told = tell(alloc, firmware, bytes)?;
    Ok(told)
}

/// Reads and checks a firmware, and prints what is wrong with it: the place, the line of the text, what was found and expected, and the rule; or the
/// line of counts.
pub fn explain<'a, F: Files, O: Sink>(
    alloc: Global,
    firmware: &'a str,
    files: &mut F,
    out: &mut O,
) -> Result<Done, Failure<'a>>
    ensures { CarriesOut (AnswerToExplain firmware.now) F.Files files.old files.new (ToExplain firmware.now) (sink O.Sink out.old) (sink O.Sink out.new) result }
{
    let bytes = load_firmware(alloc, files, firmware)?;
    let told = lines_on(alloc, firmware, bytes.as_slice())?;
    print(told.lines.as_slice(), told.done, out)
}
