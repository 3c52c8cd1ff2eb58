//! Things in rising order of where they lie.

ghost use Rattle.std.specs.Prelude.{◌≡◌, IfOk};
ghost use Rattle.image_symbols.specs.Rising as order;

use std::alloc::{AllocError, Global};

/// A thing of a kind, such as a function, and where it lies.
#[derive(Clone, Copy)]
pub struct Lying {
    /// Its number among those of its kind.
    pub number: u32,
    /// The address of its first byte.
    pub address: u32,
}

/// A number in 32 bits.
fn narrowed(number: usize) -> Result<u32, AllocError>
    ensures { IfOk result (λ n. n ≡ number) }
{
    match u32::try_from(number) {
        Ok(narrow) => Ok(narrow),
        Err(_) => Err(AllocError),
    }
}

/// Things with their numbers, by their addresses.
fn numbered(alloc: Global, addresses: &[u32]) -> Result<Vec<Lying>, AllocError>
    ensures { IfOk result (λ all. all.items ≡ order.lying addresses.now) }
{
    let mut all = Vec::new(alloc);
    for place in 0..addresses.len() {
        let number = narrowed(place)?;
        all.push(Lying {
            number,
            address: addresses[place],
        })?;
    }
    Ok(all)
}

/// Things by their addresses, in rising order of these.
///
/// # Errors
///
/// There is no memory for them. This is also the answer where there are more than a number of 32 bits tells.
pub fn rising(alloc: Global, addresses: &[u32]) -> Result<Vec<Lying>, AllocError>
    ensures { IfOk result (λ all. all.items ≡ order.rising addresses.now) }
{
    let mut all = numbered(alloc, addresses)?;
    all.sort_by(|a, b| a.address.cmp(&b.address))?;
    Ok(all)
}
