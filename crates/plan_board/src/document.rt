//! What stands in a document at a key.

ghost use Rattle.std.specs.Prelude.{◌≡◌, option_map};
ghost use Rattle.std.specs.Result.{result_map_both};
ghost use Rattle.toml.specs.Data.{get_member};
ghost use Rattle.toml.specs.View.{view, table_view};
ghost use Rattle.plan_board.specs.Keys.{word_of};
ghost use Rattle.plan_board.specs.Fields as fields;

use crate::key::Key;
use plan_model::plan::Lowest;
use toml::{Table, Value};

/// What is wrong at a key.
#[derive(Clone, Copy)]
pub(crate) enum KeyFault {
    /// It is not there.
    Missing(Key),
    /// It is of another kind.
    Kind(Key),
    /// It is of the kind, but may not have this value.
    Range(Key),
}

/// What stands at a key, if it is there.
pub(crate) fn find<'a>(table: &'a Table, key: Key) -> Option<&'a Value>
    ensures { option_map (λ v. view v.now) result ≡ get_member (word_of key) (table_view table.now) }
{
    table.get(key.word())
}

/// A value as a table.
pub(crate) fn table_of<'a>(value: &'a Value, key: Key) -> Result<&'a Table, KeyFault>
    ensures { result_map_both (λ t. table_view t.now) (λ f. f) result ≡ fields.table_of key (view value.now) }
{
    match value.as_table() {
        None => Err(KeyFault::Kind(key)),
        Some(table) => Ok(table),
    }
}

/// The table at a key.
pub(crate) fn table_at<'a>(table: &'a Table, key: Key) -> Result<&'a Table, KeyFault>
    ensures { result_map_both (λ t. table_view t.now) (λ f. f) result ≡ fields.table_at key (table_view table.now) }
{
    match find(table, key) {
        None => Err(KeyFault::Missing(key)),
        Some(value) => table_of(value, key),
    }
}

/// An integer as a number that the key may have.
fn allowed(integer: i64, key: Key) -> Result<u32, KeyFault>
    ensures { result ≡ fields.allowed key integer }
{
    match u32::try_from(integer) {
        Ok(number) if key.allows(number) => Ok(number),
        _ => Err(KeyFault::Range(key)),
    }
}

/// A value as a number that the key may have.
pub(crate) fn number_of(value: &Value, key: Key) -> Result<u32, KeyFault>
    ensures { result ≡ fields.number_of key (view value.now) }
{
    match value.as_integer() {
        None => Err(KeyFault::Kind(key)),
        Some(integer) => allowed(integer, key),
    }
}

/// The number at a key.
pub(crate) fn number_at(table: &Table, key: Key) -> Result<u32, KeyFault>
    ensures { result ≡ fields.number_at key (table_view table.now) }
{
    match find(table, key) {
        None => Err(KeyFault::Missing(key)),
        Some(value) => number_of(value, key),
    }
}

/// Whether a text is `closed`; it may be `open` too.
pub(crate) fn is_closed(text: &str) -> Result<bool, KeyFault>
    ensures { result ≡ fields.is_closed text.now }
{
    if text == "open" {
        Ok(false)
    } else if text == "closed" {
        Ok(true)
    } else {
        Err(KeyFault::Range(Key::MpuReads))
    }
}

/// Which block stands at RAM's base, by a text: `size` or `stack`.
pub(crate) fn lowest_named(text: &str) -> Result<Lowest, KeyFault>
    ensures { result ≡ fields.lowest_named text.now }
{
    if text == "size" {
        Ok(Lowest::Largest)
    } else if text == "stack" {
        Ok(Lowest::Stack)
    } else {
        Err(KeyFault::Range(Key::RamLowest))
    }
}
