//! Crossing sites, found one behind the other by walks through their functions.

ghost use Rattle.std.specs.Prelude.{◌≡◌, IfSome};
ghost use Rattle.ir_model.specs.Resolved.{Program as NumberedProgram};
ghost use Rattle.ir_program.specs.Seen.{program_of};
ghost use Rattle.image_entries.specs.declared.numbers.Numbers as numbered;
ghost use Rattle.image_entries.specs.Grouped.{HasEachLend};
ghost use Rattle.image_entries.specs.Recorded.{offset_with};
ghost use Rattle.image_entries.specs.Walked.{IsReachedIn, IsFound};

use crate::entries::lent_count;
use crate::numbers::Numbers;
use code_offsets::walk::{Reached, number_offset, reach};
use ir_program::program::Program;
use plan_model::needs::SiteNeed;

/// A crossing site that was found.
#[derive(Clone, Copy)]
pub(crate) struct Found {
    /// The number of its function.
    pub func: usize,
    /// The place of its call, to which the walk through the function has come.
    pub at: Reached,
    /// How far behind the entry of its function the halfword with its number stands.
    pub offset: u32,
}

/// Where a walk through a function has come, if the site that was found last is of this function.
fn reached_in(last: Option<Found>, func: usize) -> Option<Reached>
    ensures { (p : NumberedProgram) (x : numbered.Numbers) → IfSome last (IsFound p x) → IfSome result (IsReachedIn p x func) }
{
    match last {
        None => None,
        Some(found) => {
            if found.func == func {
                Some(found.at)
            } else {
                None
            }
        }
    }
}

/// Finds a site, by a walk on from the one that was found last where that is of the same function.
pub(crate) fn find(
    program: &Program,
    numbers: &Numbers,
    last: Option<Found>,
    site: &SiteNeed,
) -> Option<Found>
    requires lends { HasEachLend (program_of program.now) numbers.now }
    requires last { IfSome last (IsFound (program_of program.now) numbers.now) }
    ensures found { IfSome result (IsFound (program_of program.now) numbers.now) }
    ensures offset { IfSome result (λ x. x.offset ≡ offset_with (program_of program.now) numbers.now site.now.func site.now.block site.now.inst) }
{
    let (func, block, place) = (site.func as usize, site.block as usize, site.inst as usize);
    let routine = program.funcs.as_slice().get(func)?;
    let sites = numbers.sites.as_slice().get(func)?;
    let lends = numbers.lends.as_slice().get(func)?;
    let lent = lent_count(lends.as_slice())?;
    let calls = sites.as_slice();
    let from = reached_in(last, func);
    let at = reach(routine, calls, lent, from, block, place)?;
    let offset = number_offset(routine, calls, lent, at)?;
    Some(Found { func, at, offset })
}

/// Goes on to a place of a function, by a walk from one that was reached in it before, if one is given.
pub fn go_on(
    program: &Program,
    numbers: &Numbers,
    last: Option<Reached>,
    func: usize,
    block: usize,
    place: usize,
) -> Option<Reached>
    requires lends { HasEachLend (program_of program.now) numbers.now }
    requires last { IfSome last (IsReachedIn (program_of program.now) numbers.now func) }
    ensures block { IfSome result (λ r. r.block ≡ block) }
    ensures place { IfSome result (λ r. r.place ≡ place) }
    ensures reached { IfSome result (IsReachedIn (program_of program.now) numbers.now func) }
{
    let routine = program.funcs.as_slice().get(func)?;
    let sites = numbers.sites.as_slice().get(func)?;
    let lends = numbers.lends.as_slice().get(func)?;
    let lent = lent_count(lends.as_slice())?;
    reach(routine, sites.as_slice(), lent, last, block, place)
}
