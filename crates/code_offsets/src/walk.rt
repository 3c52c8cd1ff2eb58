//! The places of code in a function, found by a walk from one place to the next. An answer is `None` if a number takes more than
//! 32 bits, or if no instruction stands at a place.

ghost use Rattle.std.specs.Prelude.{◌≡◌, List, [], IfSome};
ghost use Rattle.ir_program.specs.Parts.{routine_of};
ghost use Rattle.code_model.specs.Sizes as sizes;
ghost use Rattle.code_offsets.specs.Walks.{IsReached};

use crate::sizes::{entry_size, exit_size, insts_size, resume_size};
use code_model::CallSite;
use ir_program::program::Routine;

/// A place of a function to which a walk has come.
#[derive(Clone, Copy)]
pub struct Reached {
    /// The number of its block in the function.
    pub block: usize,
    /// The place among the instructions of the block.
    pub place: usize,
    /// How many bytes behind the function's entry the code of the place stands.
    pub offset: u32,
}

/// The first place of a function.
fn first(routine: &Routine, lent: u32) -> Option<Reached>
    ensures { IfSome result (λ r. (ss : List CallSite) → IsReached (routine_of [] routine.now) ss lent r) }
{
    Some(Reached {
        block: 0,
        place: 0,
        offset: entry_size(routine, lent)?,
    })
}

/// The beginning of the block behind that of a place.
fn next_block(routine: &Routine, sites: &[CallSite], lent: u32, at: Reached) -> Option<Reached>
    requires { IsReached (routine_of [] routine.now) sites.now lent at }
    ensures { IfSome result (IsReached (routine_of [] routine.now) sites.now lent) }
{
    let blocks = routine.blocks.as_slice();
    let (block, place) = (at.block, at.place);
    if block >= blocks.len() {
        return None;
    }
    let sequence = &blocks[block];
    let operations = sequence.operations.as_slice();
    if place > operations.len() {
        return None;
    }
    let insts = insts_size(sites, block, operations, place, operations.len())?;
    let exit = exit_size(routine, lent, sequence.exit)?;
    let more = insts.checked_add(exit)?;
    let offset = at.offset.checked_add(more)?;
    Some(Reached {
        block: block + 1,
        place: 0,
        offset,
    })
}

/// The beginning of a block behind that of a place; the place itself where it is none.
fn to_block(
    routine: &Routine,
    sites: &[CallSite],
    lent: u32,
    from: Reached,
    block: usize,
) -> Option<Reached>
    requires { IsReached (routine_of [] routine.now) sites.now lent from }
    ensures { IfSome result (IsReached (routine_of [] routine.now) sites.now lent) }
{
    let mut at = from;
    for _ in from.block..block {
        at = next_block(routine, sites, lent, at)?;
    }
    Some(at)
}

/// A place of the same block that does not stand before.
fn to_place(
    routine: &Routine,
    sites: &[CallSite],
    lent: u32,
    at: Reached,
    block: usize,
    place: usize,
) -> Option<Reached>
    requires { IsReached (routine_of [] routine.now) sites.now lent at }
    ensures block { IfSome result (λ r. r.block ≡ block) }
    ensures place { IfSome result (λ r. r.place ≡ place) }
    ensures reached { IfSome result (IsReached (routine_of [] routine.now) sites.now lent) }
{
    let blocks = routine.blocks.as_slice();
    if at.block != block || block >= blocks.len() {
        return None;
    }
    let sequence = &blocks[block];
    let operations = sequence.operations.as_slice();
    if place < at.place || place > operations.len() {
        return None;
    }
    let more = insts_size(sites, block, operations, at.place, place)?;
    let offset = at.offset.checked_add(more)?;
    Some(Reached {
        block,
        place,
        offset,
    })
}

/// Where to begin a walk to a place: at one that was reached before, if it does not stand behind, and else at the first.
fn start(
    routine: &Routine,
    lent: u32,
    from: Option<Reached>,
    block: usize,
    place: usize,
) -> Option<Reached>
    ensures { (ss : List CallSite) → IfSome from (IsReached (routine_of [] routine.now) ss lent) → IfSome result (IsReached (routine_of [] routine.now) ss lent) }
{
    match from {
        Some(at) => {
            if at.block < block || at.block == block && at.place <= place {
                Some(at)
            } else {
                first(routine, lent)
            }
        }
        None => first(routine, lent),
    }
}

/// Goes on to a place of a function whose calls that may go to another compartment are `sites`, and of whose locals `lent` are
/// lent. The walk begins at a place that was reached before, if one is given that does not stand behind, and else at the entry. So
/// places in their order are all found in one walk.
pub fn reach(
    routine: &Routine,
    sites: &[CallSite],
    lent: u32,
    from: Option<Reached>,
    block: usize,
    place: usize,
) -> Option<Reached>
    requires { IfSome from (IsReached (routine_of [] routine.now) sites.now lent) }
    ensures block { IfSome result (λ r. r.block ≡ block) }
    ensures place { IfSome result (λ r. r.place ≡ place) }
    ensures reached { IfSome result (IsReached (routine_of [] routine.now) sites.now lent) }
{
    let begin = start(routine, lent, from, block, place)?;
    let at = to_block(routine, sites, lent, begin, block)?;
    to_place(routine, sites, lent, at, block, place)
}

/// How far behind the function's entry the halfword with a site's number stands, by the place of its call, which was reached.
pub fn number_offset(routine: &Routine, sites: &[CallSite], lent: u32, at: Reached) -> Option<u32>
    requires { IsReached (routine_of [] routine.now) sites.now lent at }
    ensures { IfSome result (λ n. n ≡ sizes.site_offset (routine_of [] routine.now) sites.now lent at.block at.place) }
{
    let blocks = routine.blocks.as_slice();
    let (block, place) = (at.block, at.place);
    if block >= blocks.len() {
        return None;
    }
    let sequence = &blocks[block];
    let operations = sequence.operations.as_slice();
    if place >= operations.len() {
        return None;
    }
    let call = resume_size(sites, block, place, &operations[place])?;
    let resume = at.offset.checked_add(call)?;
    Some(resume.saturating_sub(2))
}
