//! RAM, filled with one block after another.

ghost use Rattle.std.specs.Prelude.{◌≡◌, ◌+◌, ◌<◌, ◌^◌, ◌++◌, ◌∷◌, [], true, length, map, get_or, option_to_list, slice_set, IfOk};
ghost use Rattle.plan_model.specs.RamPlacement as placement;
ghost use Rattle.plan_layout.specs.Filling.{use_seen, block_seen, tail_seen, ram_seen, filled_by};

use crate::ram::{Purpose, Tail, UsedBlock};
use ir_model::rounding::rounded_up;
use plan_model::Spot;
use std::alloc::{AllocError, Global};

/// Where a block lies.
#[derive(Clone, Copy)]
pub(crate) struct Located {
    /// What it is for.
    pub(crate) purpose: Purpose,
    /// Where it lies.
    pub(crate) spot: Spot,
}

/// RAM with some blocks.
pub(crate) struct Filled {
    /// The bytes of the blocks outside tails.
    pub(crate) used: u32,
    /// The tails.
    pub(crate) tails: Vec<Tail>,
    /// The blocks.
    pub(crate) blocks: Vec<Located>,
}

impl Drop for Filled {
    fn drop(self) {
        let Filled {
            used: _,
            tails: _,
            blocks: _,
        } = self;
    }
}

/// A tail behind others, if there is one.
fn add_tail(tails: &mut Vec<Tail>, tail: Option<Tail>) -> Result<(), AllocError>
    ensures { IfOk result (λ _. tails.new.items ≡ tails.old.items ++ option_to_list tail) }
{
    match tail {
        None => Ok(()),
        Some(tail) => {
            tails.push(tail)?;
            Ok(())
        }
    }
}

/// The tail of a number.
fn tail_at(tails: &Vec<Tail>, number: usize) -> Tail
    requires { number < length tails.now.items }
    ensures { tail_seen result ≡ get_or (map tail_seen tails.now.items) number placement.no_tail }
{
    tails[number]
}

/// A tail in place of another.
fn put_tail(tails: &mut Vec<Tail>, number: usize, tail: Tail)
    requires { number < length tails.old.items }
    ensures { tails.new.items ≡ slice_set tails.old.items number tail }
{
    tails[number] = tail;
}

impl Filled {
    /// A block at its base, and its own tail behind the others.
    fn add(&mut self, base: u32, block: UsedBlock) -> Result<(), AllocError>
        requires { base + block.size < 2 ^ 32 }
        ensures { IfOk result (λ _. ram_seen self.new ≡ record (ram_seen self.old) { tails = map tail_seen self.old.tails.items ++ placement.tail_of base (block_seen block); blocks = (ram_seen self.old).blocks ++ placement.spot_at base (block_seen block) ∷ [] }) }
    {
        add_tail(&mut self.tails, block.tail(base))?;
        let spot = Spot {
            base,
            size: block.size,
        };
        self.blocks.push(Located {
            purpose: block.purpose,
            spot,
        })?;
        Ok(())
    }

    /// A block behind those outside tails; RAM begins at an address.
    fn add_behind(&mut self, ram: u32, block: UsedBlock) -> Result<(), AllocError>
        ensures { IfOk result (λ _. ram_seen self.new ≡ placement.with_block_behind ram (ram_seen self.old) (block_seen block)) }
    {
        let end = u64::from(ram) + u64::from(self.used) + u64::from(block.size);
        if end > u64::from(u32::MAX) {
            return Err(AllocError);
        }
        let base = ram + self.used;
        self.used += block.size;
        self.add(base, block)
    }

    /// A block in the tail of a number.
    fn add_in(&mut self, number: usize, block: UsedBlock) -> Result<(), AllocError>
        requires there { number < length self.old.tails.items }
        requires fits { placement.fits block.size (get_or (map tail_seen self.old.tails.items) number placement.no_tail) ≡ true }
        ensures { IfOk result (λ _. ram_seen self.new ≡ placement.with_block_in (ram_seen self.old) number (get_or (map tail_seen self.old.tails.items) number placement.no_tail) (block_seen block)) }
    {
        let tail = tail_at(&self.tails, number);
        let Some(base) = rounded_up(tail.from, block.size) else {
            return Err(AllocError);
        };
        let left = Tail {
            from: base + block.size,
            to: tail.to,
        };
        put_tail(&mut self.tails, number, left);
        self.add(base, block)
    }

    /// One block more; RAM begins at an address.
    fn add_block(&mut self, ram: u32, block: UsedBlock) -> Result<(), AllocError>
        ensures { IfOk result (λ _. ram_seen self.new ≡ placement.with_block ram (ram_seen self.old) (block_seen block)) }
    {
        match block.tail_in(&self.tails) {
            None => self.add_behind(ram, block),
            Some(number) => self.add_in(number, block),
        }
    }

    /// Where the block for a purpose lies, if there is one.
    pub(crate) fn spot_for(&self, purpose: Purpose) -> Option<Spot>
        ensures { result ≡ placement.spot_for (ram_seen self.now) (use_seen purpose) }
    {
        for located in &self.blocks {
            if located.purpose.is(purpose) {
                return Some(located.spot);
            }
        }
        None
    }
}

/// RAM without a block.
fn empty(alloc: Global) -> Filled
    ensures { ram_seen result ≡ placement.empty_ram }
{
    Filled {
        used: 0,
        tails: Vec::new(alloc),
        blocks: Vec::new(alloc),
    }
}

/// The greatest of a size and the sizes of blocks.
fn largest_with(size: u32, blocks: &[UsedBlock]) -> u32
    ensures { result ≡ placement.largest_with size (map block_seen blocks.now) }
{
    let mut most = size;
    for block in blocks {
        most = most.max(block.size);
    }
    most
}

/// RAM with the stack alone, which stands where RAM begins, with room for these blocks behind it: they stand from a multiple of
/// the largest block on.
fn stack_first(
    alloc: Global,
    ram: u32,
    stack: u32,
    blocks: &[UsedBlock],
) -> Result<Filled, AllocError>
    ensures { IfOk result (λ m. ram_seen m ≡ placement.stack_first ram stack (map block_seen blocks.now)) }
{
    let used = largest_with(stack, blocks);
    let (Some(from), Some(to)) = (ram.checked_add(stack), ram.checked_add(used)) else {
        return Err(AllocError);
    };
    let mut memory = Filled {
        used,
        tails: Vec::new(alloc),
        blocks: Vec::new(alloc),
    };
    memory.tails.push(Tail { from, to })?;
    memory.blocks.push(Located {
        purpose: Purpose::Stack,
        spot: Spot {
            base: ram,
            size: stack,
        },
    })?;
    Ok(memory)
}

/// RAM with these blocks behind those that it has; it begins at an address.
fn with_blocks(begun: Filled, ram: u32, blocks: &[UsedBlock]) -> Result<Filled, AllocError>
    ensures { IfOk result (λ m. ram_seen m ≡ filled_by ram (ram_seen begun) (map block_seen blocks.now)) }
{
    let mut memory = begun;
    for block in blocks {
        memory.add_block(ram, *block)?;
    }
    Ok(memory)
}

/// RAM with these blocks; it begins at an address.
///
/// # Errors
///
/// There is no memory, or an address passes 32 bits.
pub(crate) fn fill(alloc: Global, ram: u32, blocks: &[UsedBlock]) -> Result<Filled, AllocError>
    ensures { IfOk result (λ m. ram_seen m ≡ filled_by ram placement.empty_ram (map block_seen blocks.now)) }
{
    with_blocks(empty(alloc), ram, blocks)
}

/// RAM with these blocks behind the stack; it begins at an address.
///
/// # Errors
///
/// There is no memory, or an address passes 32 bits.
pub(crate) fn fill_behind_stack(
    alloc: Global,
    ram: u32,
    stack: u32,
    blocks: &[UsedBlock],
) -> Result<Filled, AllocError>
    ensures { IfOk result (λ m. ram_seen m ≡ filled_by ram (placement.stack_first ram stack (map block_seen blocks.now)) (map block_seen blocks.now)) }
{
    let begun = stack_first(alloc, ram, stack, blocks)?;
    with_blocks(begun, ram, blocks)
}
