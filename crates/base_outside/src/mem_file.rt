// One name of the files in memory, with all the memory that its room needs.
ghost use Rattle.std.specs.Prelude.{◌≡◌, ◌+◌, ◌-◌, ◌≤◌, ◌++◌, [], length, Some, IfOk, IfSome};
ghost use Rattle.std.specs.Option.{option_copied, option_map};
ghost use Rattle.std.specs.Str.{bytes_eq};

use crate::MemEntry;
use std::alloc::AllocError;
use std::marker::Model;

pub(crate) struct MemFile {
    name: Vec<u8>,
    there: bool,
    bytes: Vec<u8>,
    room: usize,
}

impl Drop for MemFile {
    fn drop(self) {
        let MemFile {
            name: _,
            there: _,
            bytes: _,
            room: _,
        } = self;
    }
}

impl Model for MemFile {
    ghost use Rattle.std.specs.Prelude.{◌≤◌, length, Some, None, vec_capacity, if◌then◌else◌};
    ghost use Rattle.base_outside.specs.Memory.{Entry};

    ghost Value = { Entry };

    ghost view = { λ s. record {
      name = s.name.items;
      held = if s.there then Some s.bytes.items else None;
      room = s.room;
    } };

    ghost invariant = { λ s. (length s.bytes.items ≤ s.room) × (s.room ≤ vec_capacity s.bytes) };
}

impl MemFile {
    // Takes the memory for the whole room.
    pub(crate) fn new(entry: MemEntry) -> Result<MemFile, AllocError>
        ensures { IfOk result (λ file. file ≡ entry) }
    {
        let MemEntry {
            name,
            there,
            mut bytes,
            room,
        } = entry;
        let room = room as usize;
        bytes.reserve_exact(room - bytes.len())?;
        Ok(MemFile {
            name,
            there,
            bytes,
            room,
        })
    }

    pub(crate) fn is_named(&self, name: &[u8]) -> bool
        ensures { result ≡ bytes_eq self.now.name name.now }
    {
        self.name.as_slice() == name
    }

    pub(crate) fn contents(&self) -> Option<&[u8]>
        ensures { option_copied result ≡ self.now.held }
    {
        if self.there { Some(&self.bytes) } else { None }
    }

    // How many more bytes may be added, if it is there.
    pub(crate) fn room_left(&self) -> Option<usize>
        ensures { result ≡ option_map (λ bytes. self.now.room - length bytes) self.now.held }
    {
        if self.there {
            Some(self.room - self.bytes.len())
        } else {
            None
        }
    }

    // Makes it hold no bytes.
    pub(crate) fn clear(&mut self)
        ensures { self.new ≡ record self.old { held = Some [] } }
    {
        self.bytes.clear();
        self.there = true;
    }

    // Adds a piece for which there is room.
    pub(crate) fn add(&mut self, piece: &[u8])
        requires { IfSome self.old.held (λ bytes. length piece.now ≤ self.old.room - length bytes) }
        ensures { IfSome self.old.held (λ bytes. self.new ≡ record self.old { held = Some (bytes ++ piece.now) }) }
    {
        if self.there {
            self.bytes.extend_from_slice(piece).unwrap();
        }
    }
}
