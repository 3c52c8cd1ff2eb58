//! Keys that no board has.

ghost use Rattle.std.specs.Prelude.{◌≡◌, option_map, option_copied, IfOk};
ghost use Rattle.toml.specs.View.{table_view};
ghost use Rattle.plan_board.specs.Extra as extra;

use crate::document::find;
use crate::key::Key;
use base_names::is_name;
use std::alloc::{AllocError, Global};
use toml::Table;

/// A key that no board has, and the table in which it stands, if that is not the document.
#[derive(Clone, Copy)]
pub(crate) struct FurtherKey<'a> {
    /// The table.
    pub(crate) table: Option<Key>,
    /// The key.
    pub(crate) word: &'a str,
}

impl FurtherKey<'_> {
    /// The key as it is printed.
    pub(crate) fn path(self, alloc: Global) -> Result<Vec<u8>, AllocError>
        ensures { IfOk result (λ path. path.items ≡ extra.path_of self.entry) }
    {
        let mut path = Vec::new(alloc);
        if let Some(table) = self.table {
            path.extend_from_slice(table.word().as_bytes())?;
            path.push(b'.')?;
        }
        path.extend_from_slice(self.word.as_bytes())?;
        Ok(path)
    }
}

/// Whether a word is that of one of these keys.
fn is_known(known: &[Key], word: &str) -> bool
    ensures { result ≡ extra.is_known known.now word.now }
{
    known.iter().any(|key| key.word() == word)
}

/// The first key of a table that is none of these.
fn extra_word<'a>(table: &'a Table, known: &[Key]) -> Option<&'a str>
    ensures { option_copied result ≡ extra.extra_word known.now (table_view table.now) }
{
    for word in table.keys() {
        if !is_known(known, word.as_str()) {
            return Some(word.as_str());
        }
    }
    None
}

/// The first key that is none of these in a table of the document, if the table is there.
fn inner_extra<'a>(document: &'a Table, table: Key, known: &[Key]) -> Option<FurtherKey<'a>>
    ensures { option_map extra.path_of result ≡ extra.inner_extra table known.now (table_view document.now) }
{
    let value = find(document, table)?;
    let word = extra_word(value.as_table()?, known)?;
    Some(FurtherKey {
        table: Some(table),
        word,
    })
}

/// The first key of a table that is no name.
fn unnamed_word(table: &Table) -> Option<&str>
    ensures { option_copied result ≡ extra.unnamed_word (table_view table.now) }
{
    for word in table.keys() {
        if !is_name(word.as_bytes()) {
            return Some(word.as_str());
        }
    }
    None
}

/// The first key that is no name in the table of what is denied, if the table is there.
fn unnamed_extra(document: &Table) -> Option<FurtherKey<'_>>
    ensures { option_map extra.path_of result ≡ extra.unnamed_extra (table_view document.now) }
{
    let value = find(document, Key::Deny)?;
    let word = unnamed_word(value.as_table()?)?;
    Some(FurtherKey {
        table: Some(Key::Deny),
        word,
    })
}

/// The first key of a document that no board has: those of the document come first, then those of its tables.
pub(crate) fn further(document: &Table) -> Option<FurtherKey<'_>>
    ensures { option_map extra.path_of result ≡ extra.extra_of (table_view document.now) }
{
    if let Some(word) = extra_word(document, &[Key::Deny, Key::Flash, Key::Mpu, Key::Ram]) {
        return Some(FurtherKey { table: None, word });
    }
    if let Some(key) = unnamed_extra(document) {
        return Some(key);
    }
    if let Some(key) = inner_extra(document, Key::Flash, &[Key::FlashBase, Key::FlashSize]) {
        return Some(key);
    }
    if let Some(key) = inner_extra(document, Key::Mpu, &[Key::MpuRegions, Key::MpuReads]) {
        return Some(key);
    }
    inner_extra(
        document,
        Key::Ram,
        &[Key::RamBase, Key::RamSize, Key::RamStack, Key::RamLowest],
    )
}
