//! Data regions: globals that the same compartments reach.

ghost use Rattle.std.specs.Prelude.{◌≡◌, ◌&&◌, not, filter, map, IfOk};
ghost use Rattle.std.specs.List.{list_any};
ghost use Rattle.plan_model.specs.InitialGraph.{has_users, same_users};
ghost use Rattle.plan_model.specs.Lists.{distinct};
ghost use Rattle.plan_graph.specs.UserLists.{users_seen, members, without_users, region_seen};

use crate::users::UserLists;
use base_lists::ListVec;
use plan_model::graph::DataRegion;
use std::alloc::{AllocError, Global};

/// Whether a compartment reaches the globals of these users.
fn has_any(users: &UserLists) -> bool
    ensures { result ≡ has_users (users_seen users.now) }
{
    !(users.writers.is_empty() && users.readers.is_empty())
}

/// Whether the same compartments write and read.
fn are_same(one: &UserLists, other: &UserLists) -> bool
    ensures { result ≡ same_users (users_seen one.now) (users_seen other.now) }
{
    one.writers.as_slice() == other.writers.as_slice()
        && one.readers.as_slice() == other.readers.as_slice()
}

/// Whether these users are among others.
fn is_known(kinds: &[&UserLists], users: &UserLists) -> bool
    ensures { result ≡ list_any (λ kind. same_users (users_seen kind.now) (users_seen users.now)) kinds.now }
{
    for i in 0..kinds.len() {
        if are_same(kinds[i], users) {
            return true;
        }
    }
    false
}

/// Whether users reach a global and are not among others.
fn is_new(kinds: &[&UserLists], users: &UserLists) -> bool
    ensures { result ≡ (has_users (users_seen users.now) && not (list_any (λ kind. same_users (users_seen kind.now) (users_seen users.now)) kinds.now)) }
{
    has_any(users) && !is_known(kinds, users)
}

/// The different users, in the order of the first global of each.
fn different(alloc: Global, all: &[UserLists]) -> Result<Vec<&UserLists>, AllocError>
    ensures { IfOk result (λ kinds. map (λ kind. users_seen kind.now) kinds.items ≡ distinct same_users (filter has_users (map users_seen all.now))) }
{
    let mut kinds = Vec::new(alloc);
    for i in 0..all.len() {
        let users = &all[i];
        if is_new(&kinds, users) {
            kinds.push(users)?;
        }
    }
    Ok(kinds)
}

/// The globals that have these users.
fn globals_of(alloc: Global, all: &[UserLists], kind: &UserLists) -> Result<Vec<u32>, AllocError>
    ensures { IfOk result (λ globals. globals.items ≡ members all.now (users_seen kind.now)) }
{
    let Ok(count) = u32::try_from(all.len()) else {
        return Err(AllocError);
    };
    let mut globals = Vec::new(alloc);
    for global in 0..count {
        if are_same(&all[global as usize], kind) {
            globals.push(global)?;
        }
    }
    Ok(globals)
}

/// The globals that no compartment reaches, by the users of each.
///
/// # Errors
///
/// There is no memory for them.
pub(crate) fn unwritten(alloc: Global, all: &[UserLists]) -> Result<Vec<u32>, AllocError>
    ensures { IfOk result (λ globals. globals.items ≡ without_users all.now) }
{
    let Ok(count) = u32::try_from(all.len()) else {
        return Err(AllocError);
    };
    let mut globals = Vec::new(alloc);
    for global in 0..count {
        let alone = !has_any(&all[global as usize]);
        if alone {
            globals.push(global)?;
        }
    }
    Ok(globals)
}

fn region(alloc: Global, all: &[UserLists], kind: &UserLists) -> Result<DataRegion, AllocError>
    ensures { IfOk result (λ region. region ≡ region_seen all.now (users_seen kind.now)) }
{
    let globals = globals_of(alloc, all, kind)?;
    let writers = Vec::from_slice(alloc, kind.writers.as_slice())?;
    let readers = Vec::from_slice(alloc, kind.readers.as_slice())?;
    Ok(DataRegion {
        globals: ListVec::new(globals),
        writers: ListVec::new(writers),
        readers: ListVec::new(readers),
    })
}

/// The data regions by the users of each global, numbered by their first global.
///
/// # Errors
///
/// There is no memory for them.
pub(crate) fn regions(alloc: Global, all: &[UserLists]) -> Result<Vec<DataRegion>, AllocError>
    ensures { IfOk result (λ regions. regions.items ≡ map (region_seen all.now) (distinct same_users (filter has_users (map users_seen all.now)))) }
{
    let kinds = different(alloc, all)?;
    let mut regions = Vec::new(alloc);
    for i in 0..kinds.len() {
        regions.push(region(alloc, all, kinds[i])?)?;
    }
    Ok(regions)
}
