//! The rules of a board's keys, as they are told.

ghost use Rattle.std.specs.Prelude.{◌≡◌, ◌++◌, OnOk};
ghost use Rattle.aces_explain.specs.BoardRules as rules;
ghost use Rattle.aces_explain.specs.KeyLines.{parts_of};

use crate::key_lines::parts;
use plan_board::fault::BoardFault;
use plan_board::key::Key;
use plan_report::text::Text;
use std::alloc::AllocError;

/// What a key has to be.
fn kind_text(key: Key) -> &'static [u8]
    ensures { result.now ≡ rules.kind_text key }
{
    match key {
        Key::Flash | Key::Ram | Key::Mpu | Key::Deny => b"a table",
        Key::FlashBase
        | Key::FlashSize
        | Key::RamBase
        | Key::RamSize
        | Key::RamStack
        | Key::MpuRegions => b"an integer",
        Key::RamLowest | Key::MpuReads => b"a text",
    }
}

/// The values that a key may have.
fn value_text(key: Key) -> &'static [u8]
    ensures { result.now ≡ rules.value_text key }
{
    match key {
        Key::Flash => b"base and size",
        Key::FlashBase => b"a multiple of 0x100000 from 0 to 0x1FE00000",
        Key::FlashSize | Key::RamSize => b"a multiple of 32 from 1024 to 1048576",
        Key::Ram => b"base, size and stack, and lowest or not",
        Key::RamBase => b"a multiple of 0x100000 from 0x20000000 to 0x3FF00000",
        Key::RamStack => b"a power of two from 512 to 65536",
        Key::RamLowest => b"\"size\" or \"stack\"",
        Key::Mpu => b"regions and reads, each or not",
        Key::MpuRegions => b"8 or 16",
        Key::MpuReads => b"\"open\" or \"closed\"",
        Key::Deny => b"at most 64 ranges, each behind its name",
    }
}

/// Puts what a key has to be, and the values that it may have.
fn put_kind_rule(text: &mut Text, key: Key) -> Result<(), AllocError>
    ensures { OnOk result (text.new ≡ text.old ++ rules.kind_rule key) }
{
    text.put(kind_text(key))?;
    text.put(b": ")?;
    text.put(value_text(key))
}

/// Puts the rule of a missing key.
fn put_missing_rule(text: &mut Text, key: Key) -> Result<(), AllocError>
    ensures { OnOk result (text.new ≡ text.old ++ rules.missing_rule key) }
{
    text.put(b"has to be there, ")?;
    put_kind_rule(text, key)
}

/// The keys of a table, or what its keys are.
fn table_rule(table: &[u8]) -> &'static [u8]
    ensures { result.now ≡ rules.table_rule table.now }
{
    if table == b"flash".as_slice() {
        b"flash has the keys base and size alone"
    } else if table == b"ram".as_slice() {
        b"ram has the keys base, size, stack and lowest alone"
    } else if table == b"mpu".as_slice() {
        b"mpu has the keys regions and reads alone"
    } else if table == b"deny".as_slice() {
        b"a name of firmware texts: a letter or _, then letters, digits, _ and ., at most 64 bytes, and no reserved word"
    } else {
        b"a board has the tables flash, ram, mpu and deny alone"
    }
}

/// The rule of a further key.
fn extra_rule(path: &[u8]) -> &'static [u8]
    ensures { result.now ≡ rules.extra_rule (parts_of path.now) }
{
    match parts(path) {
        None => b"a board has the tables flash, ram, mpu and deny alone",
        Some((table, _)) => table_rule(table),
    }
}

/// Puts the rule that a board's text breaks.
pub(crate) fn put_rule(text: &mut Text, fault: &BoardFault) -> Result<(), AllocError>
    ensures { OnOk result (text.new ≡ text.old ++ rules.rule_of fault.now) }
{
    match fault {
        BoardFault::NoMemory => text.put(b"memory enough to read the text"),
        BoardFault::NotToml => text.put(b"a TOML document in UTF-8, in which no key stands twice"),
        BoardFault::Missing(key) => put_missing_rule(text, *key),
        BoardFault::Kind(key) => put_kind_rule(text, *key),
        BoardFault::Range(key) => text.put(value_text(*key)),
        BoardFault::DeniedKind(_) => text.put(b"an array of two integers: base and size"),
        BoardFault::DeniedRange(_) => text.put(
            b"a base and a size of 1 byte or more, the first byte and the last from 0x40000000 to 0x5FFFFFFF",
        ),
        BoardFault::Extra(path) => text.put(extra_rule(path.as_slice())),
    }
}
