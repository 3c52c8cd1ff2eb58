//! Which compartments write and read each global.

ghost use Rattle.std.specs.Prelude.{◌≡◌, ◌<◌, length, map, IfOk};
ghost use Rattle.ir_model.specs.declared.object.ObjId.TheVariants.{Global as TheGlobal};
ghost use Rattle.plan_model.specs.Groups as sets;
ghost use Rattle.plan_model.specs.InitialGraph.{compartments_that, users_of};
ghost use Rattle.plan_model.specs.Lists.{numbers_below};
ghost use Rattle.plan_graph.specs.UserLists.{users_seen};

use crate::{reads, writes};
use ir_model::object::ObjId;
use plan_model::groups::Groups;
use plan_model::needs::Needs;
use std::alloc::{AllocError, Global};

/// The compartments that reach a global, in rising order.
pub(crate) struct UserLists {
    /// Those that may write it.
    pub(crate) writers: Vec<u32>,
    /// On a closed board those that may read it.
    pub(crate) readers: Vec<u32>,
}

impl Drop for UserLists {
    fn drop(self) {
        let UserLists {
            writers: _,
            readers: _,
        } = self;
    }
}

fn writers(
    alloc: Global,
    needs: &Needs,
    groups: &Groups,
    global: u32,
) -> Result<Vec<u32>, AllocError>
    requires { length groups.now.of ≡ length needs.now.funcs }
    ensures { IfOk result (λ cs. cs.items ≡ compartments_that groups.now (λ c. sets.writes needs.now groups.now c (TheGlobal global))) }
{
    let object = ObjId::Global(global);
    let mut writers = Vec::new(alloc);
    for compartment in 0..groups.count {
        if writes(needs, groups, compartment, &object) {
            writers.push(compartment)?;
        }
    }
    Ok(writers)
}

fn readers(
    alloc: Global,
    needs: &Needs,
    groups: &Groups,
    global: u32,
) -> Result<Vec<u32>, AllocError>
    requires { length groups.now.of ≡ length needs.now.funcs }
    ensures { IfOk result (λ cs. cs.items ≡ compartments_that groups.now (λ c. sets.reads needs.now groups.now c (TheGlobal global))) }
{
    let object = ObjId::Global(global);
    let mut readers = Vec::new(alloc);
    for compartment in 0..groups.count {
        if reads(needs, groups, compartment, &object) {
            readers.push(compartment)?;
        }
    }
    Ok(readers)
}

/// Which compartments reach a global.
fn users(
    alloc: Global,
    needs: &Needs,
    groups: &Groups,
    global: u32,
) -> Result<UserLists, AllocError>
    requires { length groups.now.of ≡ length needs.now.funcs }
    ensures { IfOk result (λ users. users_seen users ≡ users_of needs.now groups.now global) }
{
    let writers = writers(alloc, needs, groups, global)?;
    if needs.closed {
        let readers = readers(alloc, needs, groups, global)?;
        return Ok(UserLists { writers, readers });
    }
    Ok(UserLists {
        writers,
        readers: Vec::new(alloc),
    })
}

/// Which compartments reach each of the first globals.
///
/// # Errors
///
/// There is no memory for it.
pub(crate) fn all_users(
    alloc: Global,
    needs: &Needs,
    groups: &Groups,
    globals: u32,
) -> Result<Vec<UserLists>, AllocError>
    requires { length groups.now.of ≡ length needs.now.funcs }
    ensures { IfOk result (λ all. map users_seen all.items ≡ map (users_of needs.now groups.now) (numbers_below globals)) }
{
    let mut all = Vec::new(alloc);
    for global in 0..globals {
        all.push(users(alloc, needs, groups, global)?)?;
    }
    Ok(all)
}
