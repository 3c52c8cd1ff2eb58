// Files and sinks of the system: the trusted edge. What a real file or stream holds is said nowhere, so
// only the counts of faults are told.
ghost use Rattle.std.specs.Prelude.{◌≡◌, ◌≤◌, length, IfOk};

use crate::{Failed, Files, Sink};
use std::fs::{File, OpenOptions};
use std::io::{Read, Seek, SeekFrom, Write};
use std::rt::Files as FileSystem;
use std::{fs, io};

/// The files of the system, by their paths. A name that isn't there, or that is no regular file, counts as a fault of `size`.
#[derive(Drop)]
pub struct HostFiles<S: FileSystem> {
    system: S,
    read_faults: u64,
    write_faults: u64,
}

impl<S: FileSystem> HostFiles<S> {
    /// The files of this system. No fault is counted yet.
    pub fn new(system: S) -> Self
        ensures read { ⟦<HostFiles<S> as Files>⟧.read_faults result ≡ 0 }
        ensures write { ⟦<HostFiles<S> as Files>⟧.write_faults result ≡ 0 }
    {
        HostFiles {
            system,
            read_faults: 0,
            write_faults: 0,
        }
    }

    fn read(&self, name: &str, at: u64, buf: &mut [u8]) -> io::Result<usize>
        ensures { IfOk result (λ n. n ≤ length buf.old) }
    {
        let mut file = File::open(&self.system, name)?;
        file.seek(SeekFrom::Start(at))?;
        file.read(buf)
    }

    fn write(&self, name: &str, piece: &[u8]) -> io::Result<()> {
        let mut file = OpenOptions::new().append(true).open(&self.system, name)?;
        file.write_all(piece)
    }
}

impl<S: FileSystem> Files for HostFiles<S> {
    ghost use Rattle.std.specs.Prelude.{false, None};

    ghost told = { false };

    ghost held = { λ _ _. None };

    ghost read_faults = { λ f. f.read_faults };

    ghost write_faults = { λ f. f.write_faults };

    fn size(&mut self, name: &str) -> Result<u64, Failed> {
        match fs::metadata(&self.system, name) {
            Ok(metadata) if metadata.is_file() => Ok(metadata.len()),
            Ok(_) | Err(_) => {
                self.read_faults = self.read_faults.saturating_add(1);
                Err(Failed)
            }
        }
    }

    fn read_at(&mut self, name: &str, at: u64, buf: &mut [u8]) -> Result<usize, Failed> {
        match self.read(name, at, buf) {
            Ok(n) => Ok(n),
            Err(_) => {
                self.read_faults = self.read_faults.saturating_add(1);
                Err(Failed)
            }
        }
    }

    fn create(&mut self, name: &str) -> Result<(), Failed> {
        match File::create(&self.system, name) {
            Ok(_) => Ok(()),
            Err(_) => {
                self.write_faults = self.write_faults.saturating_add(1);
                Err(Failed)
            }
        }
    }

    fn append(&mut self, name: &str, piece: &[u8]) -> Result<(), Failed> {
        match self.write(name, piece) {
            Ok(()) => Ok(()),
            Err(_) => {
                self.write_faults = self.write_faults.saturating_add(1);
                Err(Failed)
            }
        }
    }
}

/// A sink that is a writer of the system, as standard output or standard error.
#[derive(Drop)]
pub struct HostSink<W: Write> {
    writer: W,
    faults: u64,
}

impl<W: Write> HostSink<W> {
    /// A sink that is this writer. No fault is counted yet.
    pub fn new(writer: W) -> Self
        ensures { ⟦<HostSink<W> as Sink>⟧.faults result ≡ 0 }
    {
        HostSink { writer, faults: 0 }
    }
}

impl<W: Write> Sink for HostSink<W> {
    ghost use Rattle.std.specs.Prelude.{false, []};

    ghost told = { false };

    ghost written = { λ _. [] };

    ghost faults = { λ s. s.faults };

    fn put(&mut self, piece: &[u8]) -> Result<(), Failed> {
        if piece.is_empty() {
            return Ok(());
        }
        if self.writer.write_all(piece).is_ok() && self.writer.flush().is_ok() {
            return Ok(());
        }
        self.faults = self.faults.saturating_add(1);
        Err(Failed)
    }
}
