// A name of the files in memory, as it is at first.
ghost use Rattle.std.specs.Prelude.{◌≡◌, not};
ghost use Rattle.std.specs.List.{list_all};
ghost use Rattle.std.specs.Str.{bytes_eq};
ghost use Rattle.base_outside.specs.Memory.{names_differ};

use std::marker::Model;

/// A name of files in memory: whether it is there at first, the bytes that it then holds, and how many
/// bytes it may ever hold. A name that isn't there holds none.
#[derive(Drop)]
pub struct MemEntry {
    pub name: Vec<u8>,
    pub there: bool,
    pub bytes: Vec<u8>,
    pub room: u32,
}

impl Model for MemEntry {
    ghost use Rattle.std.specs.Prelude.{◌≡◌, ◌≤◌, length, Some, None, false, [], if◌then◌else◌};
    ghost use Rattle.base_outside.specs.Memory.{Entry};

    ghost Value = { Entry };

    ghost view = { λ e. record {
      name = e.name.items;
      held = if e.there then Some e.bytes.items else None;
      room = e.room;
    } };

    ghost invariant = { λ e. (length e.bytes.items ≤ e.room) × (e.there ≡ false → e.bytes.items ≡ []) };
}

/// Whether no two entries have one name.
pub fn names_differ(entries: &[MemEntry]) -> bool
    ensures { result ≡ names_differ entries.now }
{
    match entries {
        [] => true,
        [first, rest @ ..] => none_named(rest, &first.name) && names_differ(rest),
    }
}

fn none_named(entries: &[MemEntry], name: &[u8]) -> bool
    ensures { result ≡ list_all (λ other. not (bytes_eq other.name name.now)) entries.now }
{
    entries.iter().all(|other| other.name.as_slice() != name)
}
