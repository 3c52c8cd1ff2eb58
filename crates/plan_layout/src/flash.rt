//! Flash: where the blocks of the tables and of code lie.

ghost use Rattle.std.specs.Prelude.{◌≡◌, ◌+◌, ◌<◌, ◌^◌, length, map, sum, IfOk, IfErr};
ghost use Rattle.plan_model.specs.Boards.{IsBoard};
ghost use Rattle.plan_model.specs.FlashPlacement as flash;
ghost use Rattle.plan_model.specs.Lists.{numbers_below};
ghost use Rattle.plan_layout.specs.Placing.{IsFlash, IsFlashRefusal};

use crate::blocks::block_size;
use crate::numbers::{first_greatest, greatest, sum, sum_above, sum_equal};
use crate::refusal::{Lack, Memory, PlaceRefusal};
use base_lists::ListVec;
use plan_model::Spot;
use plan_model::plan::{Board, Sizes};
use std::alloc::{AllocError, Global};

/// Where the blocks of flash lie.
#[derive(Drop)]
pub(crate) struct FlashPlan {
    /// The tables.
    pub(crate) tables: Spot,
    /// The code of each compartment.
    pub(crate) code: ListVec<Spot>,
}

/// The sizes of the code blocks.
fn code_blocks(alloc: Global, sizes: &Sizes) -> Result<Vec<u64>, AllocError>
    ensures { IfOk result (λ blocks. blocks.items ≡ flash.code_blocks sizes.now) }
{
    sizes
        .code
        .as_slice()
        .iter()
        .map(|bytes| block_size(*bytes))
        .collect(alloc)
}

/// The sizes of all blocks, by those of code.
fn flash_blocks(alloc: Global, sizes: &Sizes, code: &[u64]) -> Result<Vec<u64>, AllocError>
    requires { code.now ≡ flash.code_blocks sizes.now }
    ensures { IfOk result (λ blocks. blocks.items ≡ flash.flash_blocks sizes.now) }
{
    let mut blocks = Vec::new(alloc);
    blocks.push(block_size(sizes.tables).max(greatest(code)))?;
    blocks.extend_from_slice(code)?;
    Ok(blocks)
}

/// The sizes of all blocks of flash: that of the tables, then those of the compartments' code.
///
/// # Errors
///
/// There is no memory for them.
pub fn all_blocks(alloc: Global, sizes: &Sizes) -> Result<Vec<u64>, AllocError>
    ensures { IfOk result (λ blocks. blocks.items ≡ flash.flash_blocks sizes.now) }
{
    let code = code_blocks(alloc, sizes)?;
    flash_blocks(alloc, sizes, code.as_slice())
}

/// Where the block of a number lies: behind all larger ones, and those of its size that come earlier.
fn spot_at(base: u32, blocks: &[u64], number: usize) -> Spot
    requires there { number < length blocks.now }
    requires room { base + sum blocks.now < 2 ^ 32 }
    ensures { result ≡ flash.flash_spot base blocks.now number }
{
    let size = blocks[number];
    let before = sum_above(blocks, size) + sum_equal(&blocks[..number], size);
    Spot {
        base: base + before as u32,
        size: size as u32,
    }
}

/// Where the code blocks lie: all but the first.
fn code_spots(
    alloc: Global,
    base: u32,
    blocks: &[u64],
    count: usize,
) -> Result<Vec<Spot>, AllocError>
    requires there { length blocks.now ≡ count + 1 }
    requires room { base + sum blocks.now < 2 ^ 32 }
    ensures { IfOk result (λ spots. spots.items ≡ map (λ c. flash.flash_spot base blocks.now (c + 1)) (numbers_below count)) }
{
    let mut spots = Vec::new(alloc);
    for number in 0..count {
        spots.push(spot_at(base, blocks, number + 1))?;
    }
    Ok(spots)
}

/// The refusal of code of `needed` bytes, by the sizes of its blocks.
fn refuse(sizes: &Sizes, code: &[u64], needed: u64, board: &Board) -> PlaceRefusal
    requires code { code.now ≡ flash.code_blocks sizes.now }
    requires needed { needed ≡ flash.flash_needed sizes.now }
    requires large { board.now.flash_size < needed }
    ensures { IsFlashRefusal sizes.now board.now result }
{
    let compartment = match first_greatest(code) {
        None => None,
        Some(place) => match u32::try_from(place) {
            Ok(compartment) => Some(compartment),
            Err(_) => return PlaceRefusal::NoMemory,
        },
    };
    PlaceRefusal::Room(Lack {
        memory: Memory::Flash,
        compartment,
        needed,
        available: u64::from(board.flash_size),
    })
}

/// Where the blocks of flash lie, by the sizes of those of code.
fn place_code(
    alloc: Global,
    sizes: &Sizes,
    board: &Board,
    code: &[u64],
) -> Result<FlashPlan, PlaceRefusal>
    requires board { IsBoard board.now }
    requires code { code.now ≡ flash.code_blocks sizes.now }
    ensures ok { IfOk result (IsFlash sizes.now board.now) }
    ensures refused { IfErr result (IsFlashRefusal sizes.now board.now) }
{
    let blocks = flash_blocks(alloc, sizes, code)?;
    let Some(needed) = sum(&blocks) else {
        return Err(PlaceRefusal::NoMemory);
    };
    if needed > u64::from(board.flash_size) {
        return Err(refuse(sizes, code, needed, board));
    }
    let tables = spot_at(board.flash_base, &blocks, 0);
    let code = code_spots(alloc, board.flash_base, &blocks, code.len())?;
    Ok(FlashPlan {
        tables,
        code: ListVec::new(code),
    })
}

/// Where the blocks of flash lie.
///
/// # Errors
///
/// They have more bytes than flash, or there is no memory.
pub(crate) fn place_flash(
    alloc: Global,
    sizes: &Sizes,
    board: &Board,
) -> Result<FlashPlan, PlaceRefusal>
    requires { IsBoard board.now }
    ensures ok { IfOk result (IsFlash sizes.now board.now) }
    ensures refused { IfErr result (IsFlashRefusal sizes.now board.now) }
{
    let code = code_blocks(alloc, sizes)?;
    place_code(alloc, sizes, board, &code)
}
