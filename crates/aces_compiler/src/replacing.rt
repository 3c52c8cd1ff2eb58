//! Images in which one compartment has other code.

ghost use Rattle.std.specs.Prelude.{◌≡◌, ◌-◌, ◌≤◌, length, IfOk, IfErr};
ghost use Rattle.std.specs.Fn.{FnReturnsAt};
ghost use Rattle.base_words.specs.Bytes.{write_all};
ghost use Rattle.ir_model.specs.Plain.{firmware_of, funcs_of};
ghost use Rattle.ir_model.specs.Resolve.{resolve};
ghost use Rattle.ir_program.specs.Seen.{program_of};
ghost use Rattle.plan_model.specs.Boards.{IsBoard};
ghost use Rattle.plan_model.specs.Compartments.{AreCompartments};
ghost use Rattle.plan_policies.specs.Callbacks.{IsGrouping};
ghost use Rattle.plan_compartments.specs.Analyses.{AreNeedsOf};
ghost use Rattle.monitor_program.specs.Page as pages;
ghost use Rattle.image_runs.specs.OtherCode.{with_flash};
ghost use Rattle.aces_compiler.specs.WithCode.{IsImageWithCode, IsCompiledWithCode, IsGroupsRefusal, IsCodeRefusal};

use crate::compiling::compartments_of;
use crate::laws::all_promises;
use crate::pipeline::{image_of_plan, plan_of_groups};
use base_lists::ListVec;
use image_linker::put_bytes;
use ir_model::checked::Checked;
use machine_devices::image::Image;
use monitor_code::page::filled_up;
use plan::PlanningRefusal;
use plan_firmwares::Analysis;
use plan_model::Spot;
use plan_model::groups::{FuncFacts, Groups};
use plan_model::plan::Board;
use plan_policies::grouping::Grouping;
use std::alloc::{AllocError, Global};

/// Why there is no image with other code.
#[derive(Clone, Copy)]
pub enum CodeRefusal {
    /// Memory ran out.
    NoMemory,
    /// There is no image of the firmware for the board.
    Refused(PlanningRefusal),
    /// There is no such compartment.
    Compartment,
    /// The code is longer than the block of the compartment.
    Length,
}

impl From<AllocError> for CodeRefusal {
    ghost use Rattle.std.specs.Prelude.{◌≡◌};
    ghost use Rattle.aces_compiler.specs.declared.replacing.CodeRefusal.TheVariants.{NoMemory};

    ghost from_gives = { λ _ e. e ≡ NoMemory };

    fn from(_: AllocError) -> Self {
        CodeRefusal::NoMemory
    }
}

/// The image with this code in a block of its flash.
fn with_block(alloc: Global, image: Image, spot: Spot, code: &[u8]) -> Result<Image, AllocError>
    requires { length code.now ≤ spot.size }
    ensures { IfOk result (λ made. made ≡ with_flash image (write_all 1 (spot.base - image.flash_base) (pages.filled_up spot.size code.now) image.flash)) }
{
    let bytes = filled_up(Vec::from_slice(alloc, code)?, spot.size as usize)?;
    let Image {
        flash_base,
        flash,
        ram_base,
        ram_size,
        monitor,
        stack_base,
        stack_size,
        regions,
        closed,
        windows,
    } = image;
    let mut memory = flash.into_vec();
    let first = spot.base.saturating_sub(flash_base) as usize;
    let Some(()) = put_bytes(&mut memory, first, &bytes) else {
        return Err(AllocError);
    };
    Ok(Image {
        flash_base,
        flash: ListVec::new(memory),
        ram_base,
        ram_size,
        monitor,
        stack_base,
        stack_size,
        regions,
        closed,
        windows,
    })
}

/// The image of a firmware for a board in these compartments, one of which has other code.
fn groups_with_code(
    alloc: Global,
    firmware: &Checked,
    analysis: &Analysis,
    groups: Groups,
    board: &Board,
    compartment: u32,
    code: &[u8],
) -> Result<Image, CodeRefusal>
    requires program { program_of analysis.now.program ≡ resolve (firmware_of firmware.now) }
    requires needs { AreNeedsOf (firmware_of firmware.now) board.now.closed analysis.now.needs }
    requires groups { AreCompartments (resolve (firmware_of firmware.now)) groups }
    requires board { IsBoard board.now }
    ensures ok { IfOk result (IsImageWithCode (firmware_of firmware.now) analysis.now.needs board.now groups compartment code.now) }
    ensures refused { IfErr result (IsGroupsRefusal (firmware_of firmware.now) analysis.now.needs board.now groups compartment code.now) }
{
    firmware.firmware();
    all_promises();
    let made = match plan_of_groups(alloc, firmware, analysis, groups, board) {
        Ok(made) => made,
        Err(PlanningRefusal::NoMemory) => return Err(CodeRefusal::NoMemory),
        Err(refusal) => return Err(CodeRefusal::Refused(refusal)),
    };
    let Some(spot) = made.plan.code.as_slice().get(compartment as usize) else {
        return Err(CodeRefusal::Compartment);
    };
    if code.len() > spot.size as usize {
        return Err(CodeRefusal::Length);
    }
    let image = image_of_plan(alloc, firmware, analysis, &made, board)?;
    Ok(with_block(alloc, image, *spot, code)?)
}

/// The image of a firmware for a board, where a callback groups the functions and the block of one compartment has this
/// code, and is erased behind it. It is confined as the image without it is, tells who runs, and keeps its memory apart.
///
/// # Errors
///
/// There is no memory; there is no image of the firmware; else there is no such compartment; else the code is longer than its block.
pub fn compile_with_code<F: Fn(&FuncFacts) -> u32>(
    alloc: Global,
    firmware: &Checked,
    analysis: &Analysis,
    board: &Board,
    grouping: &Grouping<F>,
    compartment: u32,
    code: &[u8],
) -> Result<Image, CodeRefusal>
    requires program { program_of analysis.now.program ≡ resolve (firmware_of firmware.now) }
    requires needs { AreNeedsOf (firmware_of firmware.now) board.now.closed analysis.now.needs }
    requires board { IsBoard board.now }
    requires grouping { IsGrouping grouping.now.functions grouping.now.count (F.pre grouping.now.callback) (FnReturnsAt F.Fn grouping.now.callback) }
    requires each { grouping.now.functions ≡ length (funcs_of (firmware_of firmware.now)) }
    ensures ok { IfOk result (IsCompiledWithCode (firmware_of firmware.now) analysis.now.needs board.now (FnReturnsAt F.Fn grouping.now.callback) compartment code.now) }
    ensures refused { IfErr result (IsCodeRefusal (firmware_of firmware.now) analysis.now.needs board.now (FnReturnsAt F.Fn grouping.now.callback) compartment code.now) }
{
    let groups = compartments_of(alloc, firmware, &analysis.needs, grouping)?;
    groups_with_code(alloc, firmware, analysis, groups, board, compartment, code)
}
