//! A self-test whole: from a seed and a size to its lines.

ghost use Rattle.std.specs.Prelude.{◌≡◌, ◌≤◌, IfOk, IfErr};
ghost use Rattle.ir_model.specs.Plain.{firmware_of};
ghost use Rattle.ir_generator.specs.Made.{made};
ghost use Rattle.aces_files.specs.Loads.{IsRefusal};
ghost use Rattle.aces_files.specs.Tellings.{told_outcome};
ghost use Rattle.aces_selftest.specs.Answers.{SelftestAnswer, IsTestImage};

use crate::board::test_board;
use crate::telling::tell;
use crate::testing::test;
use aces_compiler::compile_by;
use aces_files::failure::planning_failure;
use aces_files::telling::CommandOutput;
use aces_reports::Failure;
use ir_generator::checked_firmware;
use ir_model::checked::Checked;
use machine_devices::image::Image;
use plan_model::Policy;
use std::alloc::{AllocError, Global};

/// The lines on an image that was compiled, and how it ends.
fn image_output(
    alloc: Global,
    seed: u32,
    size: u32,
    firmware: &Checked,
    image: &Image,
) -> Result<CommandOutput, AllocError>
    requires most { size ≤ 200 }
    requires firmware { firmware_of firmware.now ≡ made seed size }
    requires image { IsTestImage seed size image.now }
    ensures { IfOk result (λ told. SelftestAnswer seed size (told_outcome told)) }
{
    let tested = test(alloc, seed, size, firmware, image)?;
    tell(alloc, firmware.firmware(), &tested)
}

/// Compiles the firmware of a seed and a size, runs its source and its image, and tells what both did and whether that is the same. No
/// file is touched, and nothing is printed.
///
/// # Errors
///
/// There is no memory for it, or the firmware is not compiled: a limit of what is compiled is passed, or the blocks have more bytes than
/// a memory of the board.
pub fn selftest<'a>(alloc: Global, seed: u32, size: u32) -> Result<CommandOutput, Failure<'a>>
    requires least { 1 ≤ size }
    requires most { size ≤ 200 }
    ensures ok { IfOk result (λ told. SelftestAnswer seed size (told_outcome told)) }
    ensures err { IfErr result (IsRefusal (SelftestAnswer seed size)) }
{
    let firmware = checked_firmware(alloc, seed, size)?;
    let board = test_board(alloc);
    match compile_by(alloc, &firmware, &board, Policy::Filename) {
        Ok(image) => Ok(image_output(alloc, seed, size, &firmware, &image)?),
        Err(refusal) => Err(planning_failure(alloc, firmware.firmware(), &board, refusal)),
    }
}
