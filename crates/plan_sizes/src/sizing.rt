//! The sizes of what is placed in flash.

ghost use Rattle.std.specs.Prelude.{◌≡◌, ◌≤◌, length, IfOk};
ghost use Rattle.ir_program.specs.Seen.{program_of};
ghost use Rattle.code_model.specs.Planned.{sizes_of};
ghost use Rattle.plan_crossings.specs.Seen.{seen_sites};
ghost use Rattle.plan_sizes.specs.Parts.{code_with};

use crate::functions::{all_bytes, code_bytes};
use crate::tables::table_bytes;
use base_lists::ListVec;
use ir_program::program::Program;
use plan_crossings::{crossing_sites, lent_locals};
use plan_model::graph::Final;
use plan_model::needs::{Needs, SiteNeed};
use plan_model::plan::Sizes;
use std::alloc::{AllocError, Global};

/// The bytes of each compartment's code, by the crossing sites and the locals that are lent.
fn code_sizes(
    alloc: Global,
    program: &Program,
    fin: &Final,
    sites: &[&SiteNeed],
    lent: &[(u32, u32)],
) -> Result<Vec<u32>, AllocError>
    requires { length fin.now.groups.of ≡ length program.now.funcs }
    ensures { IfOk result (λ code. code.items ≡ code_with (program_of program.now) fin.now.groups (seen_sites sites.now) lent.now) }
{
    let all = all_bytes(alloc, program, sites, lent)?;
    code_bytes(alloc, fin.groups.of.as_slice(), &all, fin.groups.count)
}

/// The bytes of each compartment's code, and of the vectors, the monitor and its tables, on a board whose protection unit has
/// `slots` slots.
///
/// # Errors
///
/// There is no memory, or a number passes 32 bits.
pub fn sizes(
    alloc: Global,
    program: &Program,
    needs: &Needs,
    fin: &Final,
    slots: u32,
) -> Result<Sizes, AllocError>
    requires each { length fin.now.groups.of ≡ length program.now.funcs }
    requires few { slots ≤ 12 }
    ensures { IfOk result (λ sizes. sizes ≡ sizes_of (program_of program.now) needs.now fin.now slots) }
{
    let sites = crossing_sites(alloc, needs, &fin.groups)?;
    let lent = lent_locals(needs, &fin.groups);
    let Some(tables) = table_bytes(program, fin, &sites, lent, slots) else {
        return Err(AllocError);
    };
    let code = code_sizes(alloc, program, fin, &sites, lent)?;
    Ok(Sizes {
        code: ListVec::new(code),
        tables,
    })
}
