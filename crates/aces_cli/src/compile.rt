//! `compile`: the image of a firmware, written to a file.

ghost use Rattle.std.specs.Prelude.{◌≤◌, ℕ, List, Some, [], IfOk, IfErr, length};
ghost use Rattle.ir_model.specs.Plain as plain;
ghost use Rattle.plan_model.specs.Boards.{IsBoard};
ghost use Rattle.plan_firmwares.specs.Unplanned.{IsUnplanned};
ghost use Rattle.aces_words.specs.Requests.{Compile, firmware_limit};
ghost use Rattle.aces_files.specs.Outcomes.{done};
ghost use Rattle.aces_files.specs.Loads.{IsRefusal};
ghost use Rattle.aces_files.specs.CarriesOut.{CarriesOut};
ghost use Rattle.aces_cli.specs.Answer.{CompileAnswer, AnswerToCompile};
ghost use Rattle.aces_cli.specs.Compiled.{IsImageText};
ghost use Rattle.base_outside.specs.Sinks.{SinkState};

use aces_compiler::{CompileRefusal, compile_by};
use aces_files::failure::planning_failure;
use aces_files::loading::{board_of, load_firmware_and};
use aces_files::writing::write;
use aces_firmwares::reading::firmware_of;
use aces_reports::{Done, Failure};
use base_outside::Files;
use ir_model::checked::Checked;
use plan_model::Policy;
use plan_model::plan::Board;
use std::alloc::Global;

/// Writes the image of a firmware for a board by a policy to a file. The output stays as it is.
pub(crate) fn compile<'a, F: Files>(
    alloc: Global,
    firmware: &'a str,
    board: &'a str,
    policy: Policy,
    image: &'a str,
    files: &mut F,
) -> Result<Done, Failure<'a>>
    ensures { (out : SinkState) → CarriesOut (AnswerToCompile firmware.now board.now policy image.now) F.Files files.old files.new (Compile firmware.now board.now policy image.now) out out result }
{
    let both = load_firmware_and(alloc, files, firmware, board)?;
    let compiled = image_by_bytes(
        alloc,
        firmware,
        both.first.as_slice(),
        board,
        both.second.as_slice(),
        policy,
    )?;
    match write(files, image, compiled.as_slice()) {
        Ok(()) => Ok(Done::Completed),
        Err(_) => Err(Failure::Unwritten { name: image }),
    }
}

/// The bytes of the image, by the bytes of both files, each behind its name. No file is touched.
fn image_by_bytes<'a>(
    alloc: Global,
    firmware: &'a str,
    bytes: &[u8],
    board: &'a str,
    text: &[u8],
    policy: Policy,
) -> Result<Vec<u8>, Failure<'a>>
    requires { length bytes.now ≤ firmware_limit }
    ensures ok { IfOk result (λ out. (image : List ℕ) → CompileAnswer firmware.now board.now policy image bytes.now text.now
        (done 0 [] (Some (record { name = image; bytes = out.items })))) }
    ensures err { IfErr result (λ failure. (image : List ℕ) → IsRefusal (CompileAnswer firmware.now board.now policy image bytes.now text.now) failure) }
{
    let checked = firmware_of(alloc, firmware, bytes)?;
    let read = board_of(alloc, board, text)?;
    match image_text(alloc, &checked, &read, policy) {
        Ok(out) => Ok(out),
        Err(refusal) => Err(planning_failure(alloc, checked.firmware(), &read, refusal)),
    }
}

/// The text of the image of a firmware for a board by a policy.
fn image_text(
    alloc: Global,
    firmware: &Checked,
    board: &Board,
    policy: Policy,
) -> Result<Vec<u8>, CompileRefusal>
    requires { IsBoard board.now }
    ensures ok { IfOk result (λ out. IsImageText policy (plain.firmware_of firmware.now) board.now out.items) }
    ensures refused { IfErr result (IsUnplanned policy (plain.firmware_of firmware.now) board.now) }
{
    let image = compile_by(alloc, firmware, board, policy)?;
    let out = machine_image::write(alloc, &image)?;
    Ok(out)
}
