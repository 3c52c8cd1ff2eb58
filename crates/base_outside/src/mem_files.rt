// Files in memory, for tests.
ghost use Rattle.std.specs.Prelude.{◌≡◌, ◌↔◌, ◌⊎◌, ◌+◌, ◌-◌, ◌<◌, ◌≤◌, ◌++◌, [], length, take, drop, min, Some, position, IfOk, IfSome, OnOk, OnErr, IsTrue, IsFalse, IsErr, IsNone, IsSome, IsSomeAnd, Contains};
ghost use Rattle.std.specs.Bool.{OnTrue, OnFalse};
ghost use Rattle.std.specs.Option.{option_map, option_copied};
ghost use Rattle.std.specs.Str.{bytes_eq};
ghost use Rattle.base_outside.specs.Counts.{Counts};
ghost use Rattle.base_outside.specs.Memory.{next, IsFailing, held, room, held_in, room_in, room_left_in, entry_of, names_differ, Passes, Rewrites, PassesRoom, kept, faults_after, IsCalled};

use crate::mem_file::MemFile;
use crate::{Failed, Files, MemEntry};
use std::alloc::{AllocError, Global};
use std::marker::Model;

/// Files in memory: a fixed set of names, each with a fixed room, and calls that fail by their numbers.
pub struct MemFiles {
    files: Vec<MemFile>,
    fails: Vec<u64>,
    keep: usize,
    calls: u64,
    read_faults: u64,
    write_faults: u64,
}

impl Drop for MemFiles {
    fn drop(self) {
        let MemFiles {
            files: _,
            fails: _,
            keep: _,
            calls: _,
            read_faults: _,
            write_faults: _,
        } = self;
    }
}

impl Model for MemFiles {
    ghost use Rattle.base_outside.specs.Memory.{FilesState};

    ghost Value = { FilesState };

    ghost view = { λ f. record {
      entries = f.files.items;
      fails = f.fails.items;
      keep = f.keep;
      calls = f.calls;
      read_faults = f.read_faults;
      write_faults = f.write_faults;
    } };
}

impl MemFiles {
    /// Files with these entries. It takes all the memory that they will ever need. The calls on the
    /// object are numbered from 0, and those whose numbers are in `fails` fail. A failing `append` adds
    /// `keep` bytes from the front of its piece on, or as many as it has and the room takes, if those are fewer.
    ///
    /// # Errors
    /// `AllocError` where there is no memory for the rooms.
    pub fn new(
        alloc: Global,
        entries: Vec<MemEntry>,
        fails: Vec<u64>,
        keep: u32,
    ) -> Result<Self, AllocError>
        requires { IsTrue (names_differ entries.items) }
        ensures { IfOk result (λ files. files ≡ record {
          entries = entries.items;
          fails = fails.items;
          keep = keep;
          calls = 0;
          read_faults = 0;
          write_faults = 0;
        }) }
    {
        let mut files = Vec::with_capacity(alloc, entries.len())?;
        for entry in entries {
            files.push(MemFile::new(entry)?)?;
        }
        Ok(MemFiles {
            files,
            fails,
            keep: keep as usize,
            calls: 0,
            read_faults: 0,
            write_faults: 0,
        })
    }

    /// The bytes that are held under a name, or `None` where it isn't there. It counts as no call.
    pub fn contents(&self, name: &str) -> Option<&[u8]>
        ensures { option_copied result ≡ held self.now name.now }
    {
        held_by(&self.files, name.as_bytes())
    }

    /// How many calls to read have failed on a name that is there.
    pub fn read_faults(&self) -> u64
        ensures { result ≡ self.now.read_faults }
    {
        self.read_faults
    }

    /// How many calls to write have failed, `append` on a name that is there.
    pub fn write_faults(&self) -> u64
        ensures { result ≡ self.now.write_faults }
    {
        self.write_faults
    }

    // Counts a call, and says whether it is one of those that fail.
    fn count_call(&mut self) -> bool
        ensures failing { IsTrue result ↔ IsFailing self.old }
        ensures counted { self.new ≡ record self.old { calls = next self.old.calls } }
    {
        let fails = is_among(&self.fails, self.calls);
        self.calls = self.calls.saturating_add(1);
        fails
    }
}

impl Files for MemFiles {
    ghost use Rattle.std.specs.Prelude.{true};

    ghost told = { true };

    ghost held = { held };

    ghost called = { IsCalled };

    ghost read_faults = { λ f. f.read_faults };

    ghost write_faults = { λ f. f.write_faults };

    /// How many bytes the name holds.
    ///
    /// # Errors
    /// `Failed` exactly where the number of this call is one of those that fail or the name isn't there.
    fn size(&mut self, name: &str) -> Result<u64, Failed>
        ensures refused { IsErr result ↔ (IsFailing self.old ⊎ IsNone (held self.old name.now)) }
        ensures ok { IfOk result (λ n. option_map length (held self.old name.now) ≡ Some n) }
        ensures state { self.new ≡ record self.old {
          calls = next self.old.calls;
          read_faults = faults_after self.old.read_faults result (held self.old name.now);
        } }
        ensures reads { Counts self.old.read_faults self.new.read_faults result }
    {
        let fails = self.count_call();
        let Some(bytes) = self.contents(name) else {
            return Err(Failed);
        };
        let size = bytes.len() as u64;
        if fails {
            self.read_faults = self.read_faults.saturating_add(1);
            return Err(Failed);
        }
        Ok(size)
    }

    /// Puts the bytes from place `at` on at the front of `buf`, as many as are there and fit, and says how
    /// many. The rest of `buf` stays.
    ///
    /// # Errors
    /// `Failed` exactly where the number of this call is one of those that fail or the name isn't there.
    /// Then `buf` stays as it was.
    fn read_at(&mut self, name: &str, at: u64, buf: &mut [u8]) -> Result<usize, Failed>
        ensures refused { IsErr result ↔ (IsFailing self.old ⊎ IsNone (held self.old name.now)) }
        ensures ok { IfOk result (λ n. IsSomeAnd (held self.old name.now) (λ bytes.
            (n ≡ min (length bytes - at) (length buf.old)) × (buf.new ≡ take n (drop at bytes) ++ drop n buf.old))) }
        ensures err { OnErr result (buf.new ≡ buf.old) }
        ensures state { self.new ≡ record self.old {
          calls = next self.old.calls;
          read_faults = faults_after self.old.read_faults result (held self.old name.now);
        } }
        ensures reads { Counts self.old.read_faults self.new.read_faults result }
    {
        let fails = self.count_call();
        if fails && self.contents(name).is_some() {
            self.read_faults = self.read_faults.saturating_add(1);
            return Err(Failed);
        }
        match self.contents(name) {
            Some(bytes) => Ok(copy_from(bytes, at, buf)),
            None => Err(Failed),
        }
    }

    /// Makes the name hold no bytes, whether it was there or not.
    ///
    /// # Errors
    /// `Failed` exactly where the number of this call is one of those that fail or the name is no entry.
    fn create(&mut self, name: &str) -> Result<(), Failed>
        ensures refused { IsErr result ↔ (IsFailing self.old ⊎ IsNone (room self.old name.now)) }
        ensures ok { OnOk result (Rewrites self.old.entries self.new.entries name.now []) }
        ensures err { OnErr result (self.new.entries ≡ self.old.entries) }
        ensures passes { Passes self.old self.new }
        ensures faults { self.new.write_faults ≡ faults_after self.old.write_faults result (Some []) }
        ensures reads { self.new.read_faults ≡ self.old.read_faults }
        ensures writes { Counts self.old.write_faults self.new.write_faults result }
    {
        let fails = self.count_call();
        if !clear_unless(&mut self.files, fails, name.as_bytes()) {
            self.write_faults = self.write_faults.saturating_add(1);
            return Err(Failed);
        }
        Ok(())
    }

    /// Adds the piece at the end of what the name holds. It takes no memory.
    ///
    /// # Errors
    /// `Failed` exactly where the number of this call is one of those that fail, the name isn't there or
    /// the piece would pass its room. Then the first `keep` bytes of the piece are added to a name that
    /// is there, or as many as it has and the room takes, if those are fewer.
    fn append(&mut self, name: &str, piece: &[u8]) -> Result<(), Failed>
        ensures refused { IsErr result ↔ (IsFailing self.old ⊎ IsNone (held self.old name.now)
            ⊎ PassesRoom self.old name.now piece.now) }
        ensures ok { OnOk result (IsSomeAnd (held self.old name.now) (λ bytes.
            Rewrites self.old.entries self.new.entries name.now (bytes ++ piece.now))) }
        ensures err { OnErr result (IfSome (held self.old name.now) (λ bytes.
            Rewrites self.old.entries self.new.entries name.now (bytes ++ kept self.old name.now piece.now))) }
        ensures missing { IsNone (held self.old name.now) → self.new.entries ≡ self.old.entries }
        ensures passes { Passes self.old self.new }
        ensures faults { self.new.write_faults ≡ faults_after self.old.write_faults result (held self.old name.now) }
        ensures reads { self.new.read_faults ≡ self.old.read_faults }
        ensures writes { Counts self.old.write_faults self.new.write_faults result }
    {
        let fails = self.count_call();
        let name = name.as_bytes();
        let Some(left) = room_left(&self.files, name) else {
            return Err(Failed);
        };
        if !add_unless(&mut self.files, fails, self.keep, left, name, piece) {
            self.write_faults = self.write_faults.saturating_add(1);
            return Err(Failed);
        }
        Ok(())
    }
}

// Puts the bytes from a place on at the front of a buffer, as many as are there and fit.
fn copy_from(bytes: &[u8], at: u64, buf: &mut [u8]) -> usize
    ensures count { result ≡ min (length bytes.now - at) (length buf.old) }
    ensures copied { buf.new ≡ take result (drop at bytes.now) ++ drop result buf.old }
{
    let at = (at as usize).min(bytes.len());
    let rest = &bytes[at..];
    let n = rest.len().min(buf.len());
    buf[..n].copy_from_slice(&rest[..n]);
    n
}

fn is_among(numbers: &[u64], number: u64) -> bool
    ensures { IsTrue result ↔ Contains numbers.now number }
{
    numbers.contains(&number)
}

// The bytes that are held under a name.
fn held_by<'a>(files: &'a [MemFile], name: &[u8]) -> Option<&'a [u8]>
    ensures { option_copied result ≡ held_in files.now name.now }
{
    match file_of(files, name) {
        Some(file) => file.contents(),
        None => None,
    }
}

fn file_of<'a>(files: &'a [MemFile], name: &[u8]) -> Option<&'a MemFile>
    ensures { option_copied result ≡ entry_of files.now name.now }
{
    files.iter().find(|file| file.is_named(name))
}

// Where the first entry of a name stands.
fn place_of(files: &[MemFile], name: &[u8]) -> Option<usize>
    ensures { result ≡ position (λ entry. bytes_eq entry.name name.now) files.now }
{
    files.iter().position(|file| file.is_named(name))
}

// How many more bytes may be added to a name, if it is there.
fn room_left(files: &[MemFile], name: &[u8]) -> Option<usize>
    ensures { result ≡ room_left_in files.now name.now }
{
    match file_of(files, name) {
        Some(file) => file.room_left(),
        None => None,
    }
}

// Makes a name hold no bytes, if it is an entry.
fn clear(files: &mut [MemFile], name: &[u8]) -> bool
    ensures entry { IsTrue result ↔ IsSome (room_in files.old name.now) }
    ensures cleared { OnTrue result (Rewrites files.old files.new name.now []) }
    ensures same { OnFalse result (files.new ≡ files.old) }
{
    let Some(place) = place_of(files, name) else {
        return false;
    };
    files[place].clear();
    true
}

// Makes a name hold no bytes, if it is an entry and the call doesn't fail.
fn clear_unless(files: &mut [MemFile], fails: bool, name: &[u8]) -> bool
    ensures refused { IsFalse result ↔ (IsTrue fails ⊎ IsNone (room_in files.old name.now)) }
    ensures cleared { OnTrue result (Rewrites files.old files.new name.now []) }
    ensures same { OnFalse result (files.new ≡ files.old) }
{
    !fails && clear(files, name)
}

// Adds a piece to a name that is there and has room for it.
fn add(files: &mut [MemFile], name: &[u8], piece: &[u8])
    requires { IsSomeAnd (room_left_in files.old name.now) (λ left. length piece.now ≤ left) }
    ensures { IfSome (held_in files.old name.now) (λ bytes. Rewrites files.old files.new name.now (bytes ++ piece.now)) }
{
    if let Some(place) = place_of(files, name) {
        files[place].add(piece);
    }
}

// Adds `keep` bytes from the front of a piece on, or as many as it has and the room takes, to a name with this room left.
fn add_kept(files: &mut [MemFile], keep: usize, left: usize, name: &[u8], piece: &[u8])
    requires { room_left_in files.old name.now ≡ Some left }
    ensures { IfSome (held_in files.old name.now) (λ bytes.
        Rewrites files.old files.new name.now (bytes ++ take (min keep left) piece.now)) }
{
    let kept = keep.min(left).min(piece.len());
    add(files, name, &piece[..kept]);
}

// Adds a piece to a name with this room left, if it fits and the call doesn't fail, and else what is kept of it.
fn add_unless(
    files: &mut [MemFile],
    fails: bool,
    keep: usize,
    left: usize,
    name: &[u8],
    piece: &[u8],
) -> bool
    requires { room_left_in files.old name.now ≡ Some left }
    ensures refused { IsFalse result ↔ (IsTrue fails ⊎ (left < length piece.now)) }
    ensures whole { OnTrue result (IfSome (held_in files.old name.now) (λ bytes.
        Rewrites files.old files.new name.now (bytes ++ piece.now))) }
    ensures part { OnFalse result (IfSome (held_in files.old name.now) (λ bytes.
        Rewrites files.old files.new name.now (bytes ++ take (min keep left) piece.now))) }
{
    if fails || left < piece.len() {
        add_kept(files, keep, left, name, piece);
        return false;
    }
    add(files, name, piece);
    true
}
