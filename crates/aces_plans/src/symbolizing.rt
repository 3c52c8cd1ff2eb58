//! `symbols`: what lies where in the image of a firmware on a board.

ghost use Rattle.std.specs.Prelude.{◌≤◌, None, IfOk, IfErr, length};
ghost use Rattle.aces_words.specs.Requests.{Symbols as ToSymbols, firmware_limit};
ghost use Rattle.base_outside.specs.Sinks.{sink};
ghost use Rattle.aces_files.specs.CarriesOut.{CarriesOut};
ghost use Rattle.aces_files.specs.Loads.{IsRefusal};
ghost use Rattle.aces_files.specs.Outcomes.{done};
ghost use Rattle.aces_plans.specs.Answers.{SymbolsAnswer, AnswerToSymbols};

use crate::symbol_lines::symbols_of;
use aces_files::failure::planning_failure;
use aces_files::loading::{board_of, load_firmware_and};
use aces_files::telling::print;
use aces_firmwares::reading::firmware_of;
use aces_reports::{Done, Failure};
use base_outside::{Files, Sink};
use plan_model::Policy;
use std::alloc::Global;

/// Prints what lies where in the image of a firmware on a board, in the compartments of a policy.
pub fn symbols<'a, F: Files, O: Sink>(
    alloc: Global,
    firmware: &'a str,
    board: &'a str,
    policy: Policy,
    files: &mut F,
    out: &mut O,
) -> Result<Done, Failure<'a>>
    ensures { CarriesOut (AnswerToSymbols firmware.now board.now policy) F.Files files.old files.new (ToSymbols firmware.now board.now policy) (sink O.Sink out.old) (sink O.Sink out.new) result }
{
    let both = load_firmware_and(alloc, files, firmware, board)?;
    let lines = symbols_by_bytes(
        alloc,
        firmware,
        both.first.as_slice(),
        board,
        both.second.as_slice(),
        policy,
    )?;
    print(lines.as_slice(), Done::Completed, out)
}

/// The lines by the bytes of both files, each behind its name. No file is touched.
fn symbols_by_bytes<'a>(
    alloc: Global,
    firmware: &'a str,
    bytes: &[u8],
    board: &'a str,
    text: &[u8],
    policy: Policy,
) -> Result<Vec<u8>, Failure<'a>>
    requires { length bytes.now ≤ firmware_limit }
    ensures ok { IfOk result (λ lines. SymbolsAnswer firmware.now board.now policy bytes.now text.now (done 0 lines.items None)) }
    ensures err { IfErr result (IsRefusal (SymbolsAnswer firmware.now board.now policy bytes.now text.now)) }
{
    let checked = firmware_of(alloc, firmware, bytes)?;
    let read = board_of(alloc, board, text)?;
    match symbols_of(alloc, &checked, &read, policy) {
        Ok(lines) => Ok(lines),
        Err(refusal) => Err(planning_failure(alloc, checked.firmware(), &read, refusal)),
    }
}
