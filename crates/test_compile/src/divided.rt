//! Images that no command makes, from files to a file: of firmwares whose functions are grouped by a callback that is given to `compile`,
//! and of firmwares in which one compartment has other code.

ghost use Rattle.std.specs.Prelude.{◌≡◌, ◌<◌, ◌%◌, IfOk, length};
ghost use Rattle.ir_model.specs.Plain.{firmware_of, funcs_of};
ghost use Rattle.ir_model.specs.Resolve.{resolve};
ghost use Rattle.ir_program.specs.Seen.{program_of};
ghost use Rattle.machine_devices.specs.Rules.{ObeysRules};
ghost use Rattle.plan_compartments.specs.Analyses.{AreNeedsOf};
ghost use Rattle.plan_model.specs.Boards.{IsBoard};

use aces_compiler::{CodeRefusal, compile, compile_with_code};
use aces_files::loading::{board_of, load, load_firmware};
use aces_firmwares::reading::firmware_of;
use anyhow::{Result, bail};
use base_outside::MemFiles;
use ir_model::checked::Checked;
use ir_model::text_limits::FUNCTION_LIMIT;
use machine_devices::image::Image;
use plan_firmwares::{Analysis, analyse};
use plan_model::Policy;
use plan_model::groups::FuncFacts;
use plan_model::plan::Board;
use plan_policies::grouping::Grouping;
use std::alloc::Global;
use test_files::{bytes_of, put};

/// The most groups, and the most functions of a firmware.
const MOST: u32 = FUNCTION_LIMIT as u32;

/// Writes the text of the image of a firmware for a board to a file, its functions in so many groups: function k is in group k modulo
/// their count.
///
/// # Errors
///
/// The count is no number; a file is not read, or the image not written; one of the texts is refused, or the firmware by its checks or by
/// the compiler; it has no function, or more than a firmware may have; there is no group, or more than that; or memory ran out.
pub fn divide(
    alloc: Global,
    files: &mut MemFiles,
    count: &str,
    firmware: &str,
    board: &str,
    image: &str,
) -> Result<()> {
    let count: u32 = count.parse()?;
    let board = board_at(alloc, files, board)?;
    let firmware = firmware_at(alloc, files, firmware)?;
    let made = divided_image(alloc, &firmware, &board, count);
    put_made(files, image, made)
}

/// Writes the text of the image of a firmware for a board to a file, where the block of a compartment has the code of a file. Each file of the
/// firmware is a compartment.
///
/// # Errors
///
/// Those of `divide`; the compartment is no number, or there is none of that number; or the code is longer than its block.
pub fn replace(
    alloc: Global,
    files: &mut MemFiles,
    firmware: &str,
    board: &str,
    compartment: &str,
    code: &str,
    image: &str,
) -> Result<()> {
    let compartment: u32 = compartment.parse()?;
    let code = bytes_of(alloc, files, code)?;
    let board = board_at(alloc, files, board)?;
    let firmware = firmware_at(alloc, files, firmware)?;
    let made = replaced_image(alloc, &firmware, &board, compartment, &code);
    put_made(files, image, made)
}

/// The checked firmware of a file.
fn firmware_at(alloc: Global, files: &mut MemFiles, firmware: &str) -> Result<Checked> {
    let Ok(bytes) = load_firmware(alloc, files, firmware) else {
        bail!("the firmware is not read");
    };
    match firmware_of(alloc, firmware, &bytes) {
        Ok(checked) => Ok(checked),
        Err(_) => bail!("no firmware"),
    }
}

/// The board of a file.
fn board_at(alloc: Global, files: &mut MemFiles, board: &str) -> Result<Board>
    ensures { IfOk result IsBoard }
{
    let Ok(text) = load(alloc, files, board) else {
        bail!("the board is not read");
    };
    match board_of(alloc, board, &text) {
        Ok(board) => Ok(board),
        Err(_) => bail!("no board"),
    }
}

/// Writes an image's text to a file, if it was made.
fn put_made(files: &mut MemFiles, name: &str, made: Result<Vec<u8>>) -> Result<()> {
    let text = made?;
    put(files, name, &text)
}

/// The text of an image.
fn text_of(alloc: Global, image: &Image) -> Result<Vec<u8>>
    requires { ObeysRules image.now }
{
    Ok(machine_image::write(alloc, image)?)
}

/// The text of the image of a checked firmware.
fn divided_image(alloc: Global, firmware: &Checked, board: &Board, count: u32) -> Result<Vec<u8>>
    requires { IsBoard board.now }
{
    let analysis = analyse(alloc, firmware, Policy::Filename, board.closed)?;
    divided_by(alloc, firmware, &analysis, board, count)
}

/// The same, of a firmware that was analysed.
fn divided_by(
    alloc: Global,
    firmware: &Checked,
    analysis: &Analysis,
    board: &Board,
    count: u32,
) -> Result<Vec<u8>>
    requires program { program_of analysis.now.program ≡ resolve (firmware_of firmware.now) }
    requires needs { AreNeedsOf (firmware_of firmware.now) board.now.closed analysis.now.needs }
    requires each { length analysis.now.needs.funcs ≡ length (funcs_of (firmware_of firmware.now)) }
    requires board { IsBoard board.now }
{
    let functions = analysis.needs.funcs.len();
    if functions == 0 || functions > MOST as usize || count == 0 || count > MOST {
        bail!("no grouping");
    }
    let by_number = |facts: &FuncFacts| -> u32
        requires { 0 < count }
        ensures { result ≡ facts.now.index % count }
    { facts.index % count };
    let grouping = Grouping::new(by_number, functions as u32, count);
    let made = compile(alloc, firmware, analysis, board, &grouping);
    let Grouping {
        callback: _callback,
        functions: _functions,
        count: _count,
    } = grouping;
    match made {
        Ok(image) => text_of(alloc, &image),
        Err(_) => bail!("refused"),
    }
}

/// The text of the image of a checked firmware with this code in a compartment.
fn replaced_image(
    alloc: Global,
    firmware: &Checked,
    board: &Board,
    compartment: u32,
    code: &[u8],
) -> Result<Vec<u8>>
    requires { IsBoard board.now }
{
    let analysis = analyse(alloc, firmware, Policy::Filename, board.closed)?;
    replaced_by(alloc, firmware, &analysis, board, compartment, code)
}

/// The same, of a firmware that was analysed.
fn replaced_by(
    alloc: Global,
    firmware: &Checked,
    analysis: &Analysis,
    board: &Board,
    compartment: u32,
    code: &[u8],
) -> Result<Vec<u8>>
    requires program { program_of analysis.now.program ≡ resolve (firmware_of firmware.now) }
    requires needs { AreNeedsOf (firmware_of firmware.now) board.now.closed analysis.now.needs }
    requires each { length analysis.now.needs.funcs ≡ length (funcs_of (firmware_of firmware.now)) }
    requires board { IsBoard board.now }
{
    let functions = analysis.needs.funcs.len();
    if functions == 0 || functions > MOST as usize {
        bail!("no grouping");
    }
    let by_file = |facts: &FuncFacts| -> u32
        ensures { result ≡ facts.now.file % 1024 }
    { facts.file % MOST };
    let grouping = Grouping::new(by_file, functions as u32, MOST);
    let made = compile_with_code(
        alloc,
        firmware,
        analysis,
        board,
        &grouping,
        compartment,
        code,
    );
    let Grouping {
        callback: _callback,
        functions: _functions,
        count: _count,
    } = grouping;
    match made {
        Ok(image) => text_of(alloc, &image),
        Err(CodeRefusal::NoMemory) => bail!("no memory"),
        Err(CodeRefusal::Refused(_)) => bail!("refused"),
        Err(CodeRefusal::Compartment) => bail!("no such compartment"),
        Err(CodeRefusal::Length) => bail!("the code is too long"),
    }
}
