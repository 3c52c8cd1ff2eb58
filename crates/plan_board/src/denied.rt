//! What a board denies to every compartment.

ghost use Rattle.std.specs.Prelude.{◌≡◌, ◌≢◌, Ok, Err, IfOk, IfErr, IsTrue, nat_lt, length};
ghost use Rattle.base_names.specs.Names as words;
ghost use Rattle.toml.specs.View.{view, table_view};
ghost use Rattle.plan_board.specs.declared.fault.BoardFault.TheVariants.{NoMemory};
ghost use Rattle.plan_board.specs.declared.key.Key.TheVariants.{Deny};
ghost use Rattle.plan_board.specs.Keys.{behind};
ghost use Rattle.plan_board.specs.Denied as denied;

use crate::document::find;
use crate::extra::FurtherKey;
use crate::fault::BoardFault;
use crate::key::Key;
use base_lists::ListVec;
use base_names::{Name, is_name};
use plan_model::{DENIED_LIMIT, DEVICE_END, Denied, FIRST_DEVICE, Spot};
use std::alloc::{AllocError, Global};
use toml::{Table, Value};

/// The integers of an array of exactly two.
fn two_of(value: &Value) -> Option<(i64, i64)>
    ensures { result ≡ denied.two_of (view value.now) }
{
    match value.as_array()?.as_slice() {
        [base, size] => Some((base.as_integer()?, size.as_integer()?)),
        _ => None,
    }
}

/// Whether a range of addresses may be denied.
fn is_deniable(base: u32, size: u32) -> bool
    ensures { result ≡ denied.is_deniable base size }
{
    size >= 1 && base >= FIRST_DEVICE && base <= DEVICE_END && size <= DEVICE_END - base
}

/// A range of addresses that may be denied.
fn spot_of(base: i64, size: i64) -> Option<Spot>
    ensures { result ≡ denied.spot_of base size }
{
    match (u32::try_from(base), u32::try_from(size)) {
        (Ok(base), Ok(size)) if is_deniable(base, size) => Some(Spot { base, size }),
        _ => None,
    }
}

/// A key of the table as it is printed.
fn path(alloc: Global, word: &str) -> Result<ListVec<u8>, AllocError>
    ensures { IfOk result (λ path. path ≡ behind Deny word.now) }
{
    let key = FurtherKey {
        table: Some(Key::Deny),
        word,
    };
    Ok(ListVec::new(key.path(alloc)?))
}

/// The range of a name, by what is at its key.
fn range_of(alloc: Global, word: &str, value: &Value) -> Result<Denied, BoardFault>
    requires { IsTrue (words.is_name word.now) }
    ensures ok { IfOk result (λ range. denied.range_of word.now (view value.now) ≡ Ok range) }
    ensures refused { IfErr result (λ fault. fault ≢ NoMemory → denied.range_of word.now (view value.now) ≡ Err fault) }
{
    let Some((base, size)) = two_of(value) else {
        return Err(BoardFault::DeniedKind(path(alloc, word)?));
    };
    let Some(spot) = spot_of(base, size) else {
        return Err(BoardFault::DeniedRange(path(alloc, word)?));
    };
    Ok(Denied {
        name: Name::of(alloc, word.as_bytes())?,
        base: spot.base,
        size: spot.size,
    })
}

/// Whether a table has more ranges than may be denied.
fn has_too_many(table: &Table) -> bool
    ensures { result ≡ nat_lt DENIED_LIMIT (length (denied.named (table_view table.now))) }
{
    let mut room = DENIED_LIMIT;
    for (word, _value) in table.iter() {
        if is_name(word.as_bytes()) {
            if room == 0 {
                return true;
            }
            room -= 1;
        }
    }
    false
}

/// The ranges of a table.
fn ranges_of(alloc: Global, table: &Table) -> Result<ListVec<Denied>, BoardFault>
    ensures ok { IfOk result (λ ranges. denied.ranges_of (denied.named (table_view table.now)) ≡ Ok ranges) }
    ensures refused { IfErr result (λ fault. fault ≢ NoMemory → denied.ranges_of (denied.named (table_view table.now)) ≡ Err fault) }
{
    let mut ranges = Vec::new(alloc);
    for (word, value) in table.iter() {
        if is_name(word.as_bytes()) {
            let range = range_of(alloc, word.as_str(), value)?;
            match ranges.push(range) {
                Ok(()) => {}
                Err(_) => return Err(BoardFault::NoMemory),
            }
        }
    }
    Ok(ListVec::new(ranges))
}

/// The ranges of a table that may have more of them than are allowed.
fn ranges_in(alloc: Global, table: &Table) -> Result<ListVec<Denied>, BoardFault>
    ensures ok { IfOk result (λ ranges. denied.ranges_in (table_view table.now) ≡ Ok ranges) }
    ensures refused { IfErr result (λ fault. fault ≢ NoMemory → denied.ranges_in (table_view table.now) ≡ Err fault) }
{
    if has_too_many(table) {
        return Err(BoardFault::Range(Key::Deny));
    }
    ranges_of(alloc, table)
}

/// What a document denies.
#[tactic(auto, unfolding(crate::specs::Denied::denied_of))]
pub(crate) fn denied_of(alloc: Global, document: &Table) -> Result<ListVec<Denied>, BoardFault>
    ensures ok { IfOk result (λ ranges. denied.denied_of (table_view document.now) ≡ Ok ranges) }
    ensures refused { IfErr result (λ fault. fault ≢ NoMemory → denied.denied_of (table_view document.now) ≡ Err fault) }
{
    match find(document, Key::Deny) {
        None => Ok(ListVec::new(Vec::new(alloc))),
        Some(value) => match value.as_table() {
            None => Err(BoardFault::Kind(Key::Deny)),
            Some(table) => ranges_in(alloc, table),
        },
    }
}
