//! Where all blocks lie.

ghost use Rattle.std.specs.Prelude.{◌≡◌, ◌<◌, map, IfOk, IfErr, Ok};
ghost use Rattle.ir_program.specs.Seen.{program_of};
ghost use Rattle.plan_model.specs.declared.plan.Lowest.TheVariants as lowest;
ghost use Rattle.plan_model.specs.Boards.{IsBoard};
ghost use Rattle.plan_model.specs.Lists.{numbers_below};
ghost use Rattle.plan_model.specs.Placement.{placed_for};
ghost use Rattle.plan_model.specs.RamBlocks.{ForRegion};
ghost use Rattle.plan_model.specs.RamPlacement as placement;
ghost use Rattle.plan_model.specs.Choices.{first_of};
ghost use Rattle.plan_model.specs.Regions.{users};
ghost use Rattle.plan_layout.specs.Filling.{use_seen, ram_seen};
ghost use Rattle.plan_layout.specs.Placing.{IsRam, IsRamRefusal, IsPlaceRefusal, placed};

use crate::blocks::block_size;
use crate::filled::{Filled, fill, fill_behind_stack};
use crate::flash::place_flash;
use crate::numbers::{first_greatest, least, lesser};
use crate::ram::{Purpose, falling_blocks, falling_others};
use crate::refusal::{Lack, Memory, PlaceRefusal};
use base_lists::ListVec;
use ir_program::program::Program;
use plan_model::Spot;
use plan_model::graph::{DataRegion, Final};
use plan_model::plan::{Board, Lowest, Plan, Sizes};
use plan_sizes::regions::region_bytes;
use std::alloc::{AllocError, Global};

/// Where the blocks of RAM lie.
#[derive(Drop)]
pub(crate) struct RamPlan {
    stack: Spot,
    monitor: Spot,
    regions: ListVec<Spot>,
    unwritten: Option<Spot>,
}

/// Where a purpose's block lies.
fn spot_of(memory: &Filled, purpose: Purpose) -> Spot
    ensures { result ≡ placed_for (ram_seen memory.now) (use_seen purpose) }
{
    match memory.spot_for(purpose) {
        Some(spot) => spot,
        None => Spot { base: 0, size: 0 },
    }
}

/// Where the data regions lie.
fn region_spots(alloc: Global, memory: &Filled, count: usize) -> Result<Vec<Spot>, AllocError>
    ensures { IfOk result (λ spots. spots.items ≡ map (λ r. placed_for (ram_seen memory.now) (ForRegion r)) (numbers_below count)) }
{
    let Ok(count) = u32::try_from(count) else {
        return Err(AllocError);
    };
    let mut spots = Vec::new(alloc);
    for number in 0..count {
        spots.push(spot_of(memory, Purpose::Region(number)))?;
    }
    Ok(spots)
}

/// The sizes of the data regions' blocks.
fn region_sizes(
    alloc: Global,
    program: &Program,
    regions: &[DataRegion],
) -> Result<Vec<u64>, AllocError>
    ensures { IfOk result (λ sizes. sizes.items ≡ placement.region_sizes (program_of program.now) regions.now) }
{
    let mut sizes = Vec::new(alloc);
    for region in regions {
        match region_bytes(program, region.globals.as_slice()) {
            None => return Err(AllocError),
            Some(bytes) => sizes.push(block_size(bytes))?,
        }
    }
    Ok(sizes)
}

/// The lowest compartment that writes or reads a region, if there is one.
fn lowest_user(region: &DataRegion) -> Option<u32>
    ensures { result ≡ first_of (users region.now) }
{
    lesser(
        least(region.writers.as_slice()),
        least(region.readers.as_slice()),
    )
}

/// The compartment that is named where RAM is too small.
fn ram_named(alloc: Global, program: &Program, fin: &Final) -> Result<Option<u32>, AllocError>
    ensures { IfOk result (λ named. named ≡ placement.ram_named (program_of program.now) fin.now) }
{
    let regions = fin.regions.as_slice();
    let sizes = region_sizes(alloc, program, regions)?;
    match first_greatest(&sizes) {
        None => Ok(None),
        Some(number) => match regions.get(number) {
            None => Ok(None),
            Some(region) => Ok(lowest_user(region)),
        },
    }
}

/// Where the blocks of RAM lie, once it is filled.
fn ram_plan(
    alloc: Global,
    program: &Program,
    fin: &Final,
    board: &Board,
    memory: &Filled,
) -> Result<RamPlan, PlaceRefusal>
    requires { ram_seen memory.now ≡ placement.ram_of (program_of program.now) fin.now board.now }
    ensures ok { IfOk result (IsRam (program_of program.now) fin.now board.now) }
    ensures refused { IfErr result (IsRamRefusal (program_of program.now) fin.now board.now) }
{
    if memory.used > board.ram_size {
        return Err(PlaceRefusal::Room(Lack {
            memory: Memory::Ram,
            compartment: ram_named(alloc, program, fin)?,
            needed: u64::from(memory.used),
            available: u64::from(board.ram_size),
        }));
    }
    let regions = region_spots(alloc, memory, fin.regions.len())?;
    Ok(RamPlan {
        stack: spot_of(memory, Purpose::Stack),
        monitor: spot_of(memory, Purpose::Monitor),
        regions: ListVec::new(regions),
        unwritten: memory.spot_for(Purpose::Unwritten),
    })
}

/// RAM with all blocks, the largest first.
fn largest_lowest(
    alloc: Global,
    program: &Program,
    fin: &Final,
    board: &Board,
) -> Result<Filled, AllocError>
    ensures { IfOk result (λ m. ram_seen m ≡ placement.ram_by (program_of program.now) fin.now board.now lowest.Largest) }
{
    let blocks = falling_blocks(alloc, program, fin, board.stack)?;
    fill(alloc, board.ram_base, &blocks)
}

/// RAM with all blocks, the stack first.
fn stack_lowest(
    alloc: Global,
    program: &Program,
    fin: &Final,
    board: &Board,
) -> Result<Filled, AllocError>
    ensures { IfOk result (λ m. ram_seen m ≡ placement.ram_by (program_of program.now) fin.now board.now lowest.Stack) }
{
    let blocks = falling_others(alloc, program, fin)?;
    fill_behind_stack(alloc, board.ram_base, board.stack, &blocks)
}

/// RAM with all blocks.
fn whole_ram(
    alloc: Global,
    program: &Program,
    fin: &Final,
    board: &Board,
) -> Result<Filled, AllocError>
    ensures { IfOk result (λ m. ram_seen m ≡ placement.ram_of (program_of program.now) fin.now board.now) }
{
    match board.lowest {
        Lowest::Largest => largest_lowest(alloc, program, fin, board),
        Lowest::Stack => stack_lowest(alloc, program, fin, board),
    }
}

/// Where the blocks of RAM lie.
fn place_ram(
    alloc: Global,
    program: &Program,
    fin: &Final,
    board: &Board,
) -> Result<RamPlan, PlaceRefusal>
    ensures ok { IfOk result (IsRam (program_of program.now) fin.now board.now) }
    ensures refused { IfErr result (IsRamRefusal (program_of program.now) fin.now board.now) }
{
    let memory = whole_ram(alloc, program, fin, board)?;
    ram_plan(alloc, program, fin, board, &memory)
}

/// Where all blocks of a firmware lie on a board: blocks of flash and of RAM in falling order of size, except that a
/// region may stand in the end of another region's block, and the stack stands first where the board asks for it.
///
/// # Errors
///
/// The blocks have more bytes than a memory, flash first, or there is no memory.
pub fn place(
    alloc: Global,
    program: &Program,
    fin: &Final,
    sizes: &Sizes,
    board: &Board,
) -> Result<Plan, PlaceRefusal>
    requires { IsBoard board.now }
    ensures ok { IfOk result (λ plan. placed (program_of program.now) fin.now sizes.now board.now ≡ Ok plan) }
    ensures refused { IfErr result (IsPlaceRefusal (program_of program.now) fin.now sizes.now board.now) }
{
    let flash = place_flash(alloc, sizes, board)?;
    let ram = place_ram(alloc, program, fin, board)?;
    Ok(Plan {
        tables: flash.tables,
        code: flash.code,
        stack: ram.stack,
        monitor: ram.monitor,
        regions: ram.regions,
        unwritten: ram.unwritten,
    })
}
