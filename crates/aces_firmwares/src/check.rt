//! `check`: a firmware, read and checked, and its counts.

ghost use Rattle.std.specs.Prelude.{◌≡◌, ◌≤◌, length, flat_map};
ghost use Rattle.ir_model.specs.declared.firmware.FileDecl.{FileDecl as SourceFile};
ghost use Rattle.ir_model.specs.Plain as plain;
ghost use Rattle.aces_words.specs.Requests.{Check};
ghost use Rattle.aces_firmwares.specs.Counts as counts;
ghost use Rattle.base_outside.specs.Sinks.{sink};
ghost use Rattle.aces_firmwares.specs.Answers.{AnswerToCheck};
ghost use Rattle.aces_files.specs.CarriesOut.{CarriesOut};
ghost use Rattle.ir_model.specs.TextLimits.{function_limit};

use crate::reading::firmware_of;
use aces_files::loading::load_firmware;
use aces_files::telling::print;
use aces_reports::{Done, Failure};
use base_outside::{Files, Sink};
use ir_model::checked::Checked;
use ir_model::firmware::FileDecl;
use machine_lines::{Line, count_line};
use std::alloc::Global;

/// Reads and checks a firmware, and prints how many functions, globals and peripherals it has.
pub fn check<'a, F: Files, O: Sink>(
    alloc: Global,
    firmware: &'a str,
    files: &mut F,
    out: &mut O,
) -> Result<Done, Failure<'a>>
    ensures { CarriesOut (AnswerToCheck firmware.now) F.Files files.old files.new (Check firmware.now) (sink O.Sink out.old) (sink O.Sink out.new) result }
{
    let bytes = load_firmware(alloc, files, firmware)?;
    let checked = firmware_of(alloc, firmware, bytes.as_slice())?;
    let line = counts_of(&checked);
    print(line.as_slice(), Done::Completed, out)
}

/// The line of counts of a firmware. It takes no memory.
pub fn counts_of(checked: &Checked) -> Line
    ensures { result ≡ counts.count_line (plain.firmware_of checked.now) }
{
    let firmware = checked.firmware();
    let functions = count_functions(firmware.files.as_slice());
    count_line(functions, firmware.globals.len(), firmware.periphs.len())
}

/// How many functions these files have.
fn count_functions(files: &[FileDecl]) -> usize
    requires { length (flat_map (λ (f : SourceFile). f.funcs) files.now) ≤ function_limit }
    ensures { result ≡ length (flat_map (λ (f : SourceFile). f.funcs) files.now) }
{
    let mut count = 0;
    for file in files {
        count += file.funcs.len();
    }
    count
}
