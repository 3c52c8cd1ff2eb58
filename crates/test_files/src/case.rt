//! What a case is.

use crate::call::{Call, numbers};
use crate::section::{Section, parts_of, read_sections};
use anyhow::{Result, bail, ensure};
use base_outside::MemEntry;
use std::alloc::Global;

/// How many bytes each file may come to hold, if it does not hold more at first.
const ROOM: u32 = 262_144;

/// Files in memory, the calls on them that fail, and calls of the program.
#[derive(Drop)]
pub(crate) struct Case {
    pub(crate) names: Vec<String>,
    pub(crate) entries: Vec<MemEntry>,
    pub(crate) fails: Vec<u64>,
    pub(crate) keep: u32,
    pub(crate) calls: Vec<Call>,
}

impl Case {
    /// The case of a text, with the files that are given for all cases.
    pub(crate) fn read(
        alloc: Global,
        text: &str,
        given: &[Section],
        texts: &[Section],
    ) -> Result<Case> {
        let mut case = Case {
            names: Vec::new(alloc),
            entries: Vec::new(alloc),
            fails: Vec::new(alloc),
            keep: 0,
            calls: Vec::new(alloc),
        };
        case.fill(alloc, text, given, texts)?;
        Ok(case)
    }

    fn fill(
        &mut self,
        alloc: Global,
        text: &str,
        given: &[Section],
        texts: &[Section],
    ) -> Result<()> {
        let sections = read_sections(alloc, text, given, texts)?;
        self.add_all(alloc, sections)?;
        self.add_all_given(alloc, given)?;
        ensure!(!self.calls.is_empty(), "there is no call");
        Ok(())
    }

    fn add_all(&mut self, alloc: Global, sections: Vec<Section>) -> Result<()> {
        for section in sections {
            self.add(alloc, section)?;
        }
        Ok(())
    }

    fn add_all_given(&mut self, alloc: Global, given: &[Section]) -> Result<()> {
        for section in given {
            self.add_given(alloc, section)?;
        }
        Ok(())
    }

    /// Takes up what a section says of the case, or of its last call.
    fn add(&mut self, alloc: Global, section: Section) -> Result<()> {
        let Section { heading, content } = section;
        self.add_parts(alloc, heading.as_str(), content)
    }

    fn add_parts(&mut self, alloc: Global, heading: &str, content: Vec<u8>) -> Result<()> {
        let (key, rest) = parts_of(heading);
        match key {
            "file" => self.add_file(alloc, rest, Some(content)),
            "fails" | "keep" | "call" | "gone" => self.add_heading(alloc, key, rest),
            _ => self.add_to_call(alloc, key, rest, content),
        }
    }

    /// Takes up a section of which only the heading counts.
    fn add_heading(&mut self, alloc: Global, key: &str, rest: &str) -> Result<()> {
        match key {
            "fails" => self.fails = numbers(alloc, rest)?,
            "keep" => self.keep = rest.parse()?,
            "call" => self.calls.push(Call::of_words(alloc, rest)?)?,
            _ => self.add_file(alloc, rest, None)?,
        }
        Ok(())
    }

    fn add_to_call(
        &mut self,
        alloc: Global,
        key: &str,
        rest: &str,
        content: Vec<u8>,
    ) -> Result<()> {
        match self.calls.last_mut() {
            Some(call) => call.add(alloc, key, rest, content),
            None => bail!("no heading before a call begins with {key}"),
        }
    }

    /// Takes up a file, or a name that is not there, unless the case has one of that name.
    fn add_given(&mut self, alloc: Global, section: &Section) -> Result<()> {
        let (key, name) = section.parts();
        for other in &self.names {
            if other.as_str() == name {
                return Ok(());
            }
        }
        let held = if key == "file" {
            Some(section.content.clone()?)
        } else {
            None
        };
        self.add_file(alloc, name, held)
    }

    fn add_file(&mut self, alloc: Global, name: &str, held: Option<Vec<u8>>) -> Result<()> {
        self.entries.push(entry(alloc, name, held)?)?;
        self.names.push(String::from_str(alloc, name)?)?;
        Ok(())
    }
}

/// A name with what it holds, `None` where it is absent. It may come to hold as much, and at least `ROOM` bytes.
fn entry(alloc: Global, name: &str, held: Option<Vec<u8>>) -> Result<MemEntry> {
    let name = name.as_bytes().to_vec(alloc)?;
    match held {
        None => Ok(MemEntry {
            name,
            there: false,
            bytes: Vec::new(alloc),
            room: ROOM,
        }),
        Some(bytes) => {
            let room = u32::try_from(bytes.len())?.max(ROOM);
            Ok(MemEntry {
                name,
                there: true,
                bytes,
                room,
            })
        }
    }
}
