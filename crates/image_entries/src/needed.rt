//! What the code of functions needs from outside.

ghost use Rattle.std.specs.Prelude.{◌≡◌, [], IfOk};
ghost use Rattle.std.proofs.Math.ListN.{get_or};
ghost use Rattle.image_entries.specs.Grouped.{places_in};

use crate::numbers::Numbers;
use base_lists::ListVec;
use code_model::{Addresses, CallSite, Places};
use std::alloc::{AllocError, Global};

/// Copied numbers.
fn copied(alloc: Global, numbers: &ListVec<u32>) -> Result<ListVec<u32>, AllocError>
    ensures { IfOk result (λ copy. copy ≡ numbers.now) }
{
    Ok(ListVec::new(Vec::from_slice(alloc, numbers.as_slice())?))
}

/// The calls of a function that may go to another compartment.
fn sites_of(numbers: &Numbers, func: usize) -> &[CallSite]
    ensures { result.now ≡ get_or numbers.now.sites func [] }
{
    match numbers.sites.as_slice().get(func) {
        Some(sites) => sites.as_slice(),
        None => &[],
    }
}

/// The number by which each local of a function is lent, if it is.
fn lends_of(numbers: &Numbers, func: usize) -> &[Option<u32>]
    ensures { result.now ≡ get_or numbers.now.lends func [] }
{
    match numbers.lends.as_slice().get(func) {
        Some(lends) => lends.as_slice(),
        None => &[],
    }
}

/// What the code of a function needs.
pub fn places_for(
    alloc: Global,
    addresses: &Addresses,
    numbers: &Numbers,
    func: usize,
) -> Result<Places, AllocError>
    ensures { IfOk result (λ places. places ≡ places_in addresses.now numbers.now func) }
{
    let sites = Vec::from_slice(alloc, sites_of(numbers, func))?;
    let lends = Vec::from_slice(alloc, lends_of(numbers, func))?;
    Ok(Places {
        globals: copied(alloc, &addresses.globals)?,
        windows: copied(alloc, &addresses.windows)?,
        entries: copied(alloc, &addresses.entries)?,
        sites: ListVec::new(sites),
        lends: ListVec::new(lends),
    })
}
