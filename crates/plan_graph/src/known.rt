//! Facts of a data region by which the cost of each join is told fast.

ghost use Rattle.std.specs.Prelude.{◌≡◌, ◌*◌, IfOk, IfSome};
ghost use Rattle.ir_program.specs.Seen.{program_of};
ghost use Rattle.plan_model.specs.Regions as regions;
ghost use Rattle.plan_graph.specs.Known.{IsKnown, exposure_of};

use crate::flags::{count_unflagged, flags, union_of};
use base_lists::ListVec;
use ir_program::program::Program;
use plan_model::graph::DataRegion;
use std::alloc::{AllocError, Global};

/// What the cost of a region's joins depends on.
pub(crate) struct Known {
    /// The bytes of its globals together.
    pub(crate) size: u64,
    /// The compartments that write it.
    pub(crate) writers: ListVec<u32>,
    /// The compartments that write or read it.
    pub(crate) users: ListVec<u32>,
    /// Which compartments write it.
    pub(crate) writes: ListVec<bool>,
    /// Which compartments write or read it.
    pub(crate) uses: ListVec<bool>,
}

impl Drop for Known {
    fn drop(self) {
        let Known {
            size: _,
            writers: _,
            users: _,
            writes: _,
            uses: _,
        } = self;
    }
}

/// The bytes of a global.
fn global_size(program: &Program, global: u32) -> u32
    ensures { result ≡ regions.global_size (program_of program.now) global }
{
    let globals = program.globals.as_slice();
    let place = global as usize;
    if place < globals.len() {
        globals[place].storage.size
    } else {
        0
    }
}

/// The bytes of these globals together, if 64 bits can tell them.
fn size(program: &Program, globals: &[u32]) -> Option<u64>
    ensures { IfSome result (λ size. size ≡ regions.size_of (program_of program.now) globals.now) }
{
    let mut size = 0u64;
    for i in 0..globals.len() {
        size = size.checked_add(u64::from(global_size(program, globals[i])))?;
    }
    Some(size)
}

/// What is known of a region.
///
/// # Errors
///
/// There is no memory for it, or the region has more bytes than 64 bits tell.
pub(crate) fn known_of(
    alloc: Global,
    program: &Program,
    region: &DataRegion,
) -> Result<Known, AllocError>
    ensures { IfOk result (λ known. IsKnown (program_of program.now) region.now known) }
{
    let Some(size) = size(program, region.globals.as_slice()) else {
        return Err(AllocError);
    };
    let writers = Vec::from_slice(alloc, region.writers.as_slice())?;
    let users = union_of(alloc, region.writers.as_slice(), region.readers.as_slice())?;
    let writes = flags(alloc, &writers)?;
    let uses = flags(alloc, &users)?;
    Ok(Known {
        size,
        writers: ListVec::new(writers),
        users: ListVec::new(users),
        writes: ListVec::new(writes),
        uses: ListVec::new(uses),
    })
}

/// A size in bytes, times the number of compartments.
fn bytes(size: u64, compartments: usize) -> Option<u64>
    ensures { IfSome result (λ bytes. bytes ≡ size * compartments) }
{
    size.checked_mul(compartments as u64)
}

/// The exposure that the join of two regions adds, if 64 bits can tell it.
pub(crate) fn exposure(one: &Known, other: &Known) -> Option<u64>
    ensures { IfSome result (λ exposure. exposure ≡ exposure_of one.now other.now) }
{
    let writers = bytes(
        one.size,
        count_unflagged(other.writers.as_slice(), one.writes.as_slice()),
    )?;
    let more_writers = bytes(
        other.size,
        count_unflagged(one.writers.as_slice(), other.writes.as_slice()),
    )?;
    let users = bytes(
        one.size,
        count_unflagged(other.users.as_slice(), one.uses.as_slice()),
    )?;
    let more_users = bytes(
        other.size,
        count_unflagged(one.users.as_slice(), other.uses.as_slice()),
    )?;
    let to_writers = writers.checked_add(more_writers)?;
    let to_users = users.checked_add(more_users)?;
    let all = to_writers.checked_add(to_users)?;
    Some(all)
}
