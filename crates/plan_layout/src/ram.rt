//! The blocks of RAM, and the tails that they leave.

ghost use Rattle.std.specs.Prelude.{◌≡◌, ◌+◌, ◌<◌, ◌^◌, ◌++◌, length, map, option_to_list, IfOk};
ghost use Rattle.ir_program.specs.Seen.{program_of};
ghost use Rattle.plan_model.specs.Lists.{numbers_below};
ghost use Rattle.plan_model.specs.RamBlocks as parts;
ghost use Rattle.plan_model.specs.RamPlacement as placement;
ghost use Rattle.plan_layout.specs.Filling.{use_seen, block_seen, tail_seen};

use crate::blocks::block_size;
use ir_model::rounding::rounded_up;
use ir_program::program::Program;
use plan_model::graph::{DataRegion, Final};
use plan_sizes::regions::region_bytes;
use std::alloc::{AllocError, Global};

/// The bytes of the monitor's block.
const MONITOR: u32 = 1024;

/// What a block of RAM is for.
#[derive(Clone, Copy)]
pub enum Purpose {
    /// The stack.
    Stack,
    /// The monitor's block.
    Monitor,
    /// The data region of this number.
    Region(u32),
    /// The globals of no data region.
    Unwritten,
}

impl Purpose {
    /// Whether it is for globals.
    fn holds_globals(self) -> bool
        ensures { result ≡ parts.holds_globals (use_seen self) }
    {
        match self {
            Purpose::Stack | Purpose::Monitor => false,
            Purpose::Region(_) | Purpose::Unwritten => true,
        }
    }

    /// Whether it is this purpose.
    pub(crate) fn is(self, other: Purpose) -> bool
        ensures { result ≡ parts.same_use (use_seen self) (use_seen other) }
    {
        match (self, other) {
            (Purpose::Stack, Purpose::Stack) => true,
            (Purpose::Monitor, Purpose::Monitor) => true,
            (Purpose::Region(a), Purpose::Region(b)) => a == b,
            (Purpose::Unwritten, Purpose::Unwritten) => true,
            _ => false,
        }
    }
}

/// A block of RAM.
#[derive(Clone, Copy)]
pub struct UsedBlock {
    /// What it is for.
    pub purpose: Purpose,
    /// How many of its bytes are used.
    pub bytes: u32,
    /// How many bytes it has.
    pub size: u32,
}

/// The end of a block in which another one may stand.
#[derive(Clone, Copy)]
pub(crate) struct Tail {
    /// The first address.
    pub(crate) from: u32,
    /// The address behind the last.
    pub(crate) to: u32,
}

impl UsedBlock {
    /// A block that is used whole.
    fn full(purpose: Purpose, size: u32) -> UsedBlock
        ensures { block_seen result ≡ parts.full_block (use_seen purpose) size }
    {
        UsedBlock {
            purpose,
            bytes: size,
            size,
        }
    }

    /// The tail of a block that stands at an address: its eighths behind the last that holds a byte.
    pub(crate) fn tail(self, base: u32) -> Option<Tail>
        requires { base + self.size < 2 ^ 32 }
        ensures { map tail_seen (option_to_list result) ≡ placement.tail_of base (block_seen self) }
    {
        if !self.purpose.holds_globals() || self.size < 256 {
            return None;
        }
        let eighth = u64::from(self.size / 8);
        let open = (u64::from(self.bytes) + (eighth - 1)) / eighth;
        if open < 8 {
            Some(Tail {
                from: base + self.size / 8 * open as u32,
                to: base + self.size,
            })
        } else {
            None
        }
    }

    /// Whether the block may stand in a tail.
    pub(crate) fn fits(self, tail: Tail) -> bool
        ensures { result ≡ placement.fits self.size (tail_seen tail) }
    {
        match rounded_up(tail.from, self.size) {
            None => false,
            Some(base) => u64::from(base) + u64::from(self.size) <= u64::from(tail.to),
        }
    }

    /// The first tail in which the block may stand.
    pub(crate) fn tail_in(self, tails: &[Tail]) -> Option<usize>
        ensures { result ≡ placement.tail_for (map tail_seen tails.now) (block_seen self) }
    {
        if !self.purpose.holds_globals() {
            return None;
        }
        for (number, tail) in tails.iter().enumerate() {
            if self.fits(*tail) {
                return Some(number);
            }
        }
        None
    }
}

/// The block of some globals.
fn globals_block(
    program: &Program,
    purpose: Purpose,
    globals: &[u32],
) -> Result<UsedBlock, AllocError>
    ensures { IfOk result (λ b. block_seen b ≡ parts.globals_block (program_of program.now) (use_seen purpose) globals.now) }
{
    let Some(bytes) = region_bytes(program, globals) else {
        return Err(AllocError);
    };
    let Ok(size) = u32::try_from(block_size(bytes)) else {
        return Err(AllocError);
    };
    Ok(UsedBlock {
        purpose,
        bytes,
        size,
    })
}

/// The block of a data region.
fn region_block(
    program: &Program,
    regions: &[DataRegion],
    number: u32,
) -> Result<UsedBlock, AllocError>
    requires { number < length regions.now }
    ensures { IfOk result (λ b. block_seen b ≡ parts.region_block (program_of program.now) regions.now number) }
{
    let globals = regions[number as usize].globals.as_slice();
    globals_block(program, Purpose::Region(number), globals)
}

/// Puts the blocks of data regions behind others.
fn add_regions(
    program: &Program,
    regions: &[DataRegion],
    blocks: &mut Vec<UsedBlock>,
) -> Result<(), AllocError>
    ensures { IfOk result (λ _. map block_seen blocks.new.items ≡ map block_seen blocks.old.items ++ map (parts.region_block (program_of program.now) regions.now) (numbers_below (length regions.now))) }
{
    let Ok(count) = u32::try_from(regions.len()) else {
        return Err(AllocError);
    };
    for number in 0..count {
        let block = region_block(program, regions, number)?;
        blocks.push(block)?;
    }
    Ok(())
}

/// Puts the block of the globals of no data region behind others, where there are any.
fn add_unwritten(
    program: &Program,
    globals: &[u32],
    blocks: &mut Vec<UsedBlock>,
) -> Result<(), AllocError>
    ensures { IfOk result (λ _. map block_seen blocks.new.items ≡ map block_seen blocks.old.items ++ parts.unwritten_block (program_of program.now) globals.now) }
{
    if !globals.is_empty() {
        blocks.push(globals_block(program, Purpose::Unwritten, globals)?)?;
    }
    Ok(())
}

/// The blocks of RAM but the stack's: the monitor's block, the data regions, and the globals of none.
fn other_blocks(alloc: Global, program: &Program, fin: &Final) -> Result<Vec<UsedBlock>, AllocError>
    ensures { IfOk result (λ bs. map block_seen bs.items ≡ parts.other_blocks (program_of program.now) fin.now) }
{
    let mut blocks = Vec::new(alloc);
    blocks.push(UsedBlock::full(Purpose::Monitor, MONITOR))?;
    add_regions(program, fin.regions.as_slice(), &mut blocks)?;
    add_unwritten(program, fin.unwritten.as_slice(), &mut blocks)?;
    Ok(blocks)
}

/// The blocks of RAM: the stack, and the others.
fn ram_blocks(
    alloc: Global,
    program: &Program,
    fin: &Final,
    stack: u32,
) -> Result<Vec<UsedBlock>, AllocError>
    ensures { IfOk result (λ bs. map block_seen bs.items ≡ parts.ram_blocks (program_of program.now) fin.now stack) }
{
    let mut blocks = other_blocks(alloc, program, fin)?;
    blocks.insert(0, UsedBlock::full(Purpose::Stack, stack))?;
    Ok(blocks)
}

/// Blocks in falling order of size.
fn falling(mut blocks: Vec<UsedBlock>) -> Result<Vec<UsedBlock>, AllocError>
    ensures { IfOk result (λ bs. map block_seen bs.items ≡ parts.falling (map block_seen blocks.items)) }
{
    blocks.sort_by(|a, b| b.size.cmp(&a.size))?;
    Ok(blocks)
}

/// The blocks of RAM in falling order of size.
///
/// # Errors
///
/// There is no memory for them, or one has more bytes than 32 bits tell.
pub fn falling_blocks(
    alloc: Global,
    program: &Program,
    fin: &Final,
    stack: u32,
) -> Result<Vec<UsedBlock>, AllocError>
    ensures { IfOk result (λ bs. map block_seen bs.items ≡ parts.falling (parts.ram_blocks (program_of program.now) fin.now stack)) }
{
    falling(ram_blocks(alloc, program, fin, stack)?)
}

/// The blocks of RAM but the stack's, in falling order of size.
///
/// # Errors
///
/// There is no memory for them, or one has more bytes than 32 bits tell.
pub(crate) fn falling_others(
    alloc: Global,
    program: &Program,
    fin: &Final,
) -> Result<Vec<UsedBlock>, AllocError>
    ensures { IfOk result (λ bs. map block_seen bs.items ≡ parts.falling (parts.other_blocks (program_of program.now) fin.now)) }
{
    falling(other_blocks(alloc, program, fin)?)
}
