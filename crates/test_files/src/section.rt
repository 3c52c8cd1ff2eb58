//! The sections of a case file.

use crate::content::Edit;
use anyhow::{Result, bail};
use std::alloc::Global;

/// A heading, as `file f.ir`, and the bytes that the lines below it make.
#[derive(Drop)]
pub struct Section {
    pub(crate) heading: String,
    pub(crate) content: Vec<u8>,
}

impl Section {
    /// The word that begins the heading, and the rest of the heading.
    pub(crate) fn parts(&self) -> (&str, &str) {
        parts_of(self.heading.as_str())
    }

    /// What stands in the heading behind a word, if it begins with that word.
    pub(crate) fn name_under(&self, word: &str) -> Option<&str> {
        let (first, rest) = self.parts();
        if first == word { Some(rest) } else { None }
    }
}

/// The word that begins a heading, and the rest of the heading.
pub(crate) fn parts_of(heading: &str) -> (&str, &str) {
    heading.split_once(' ').unwrap_or((heading, ""))
}

/// The bytes of the first file or text of a name.
pub(crate) fn content_of<'a>(sections: &'a [Section], name: &str) -> Option<&'a [u8]> {
    for section in sections {
        if section.name_under("file") == Some(name) || section.name_under("text") == Some(name) {
            return Some(&section.content);
        }
    }
    None
}

/// Reads the sections of a text. Blank lines and lines that begin with `#` count for nothing.
pub(crate) fn read_sections(
    alloc: Global,
    text: &str,
    given: &[Section],
    texts: &[Section],
) -> Result<Vec<Section>> {
    let mut sections = Vec::new(alloc);
    add_sections(alloc, text, &mut sections, given, texts)?;
    Ok(sections)
}

fn add_sections(
    alloc: Global,
    text: &str,
    sections: &mut Vec<Section>,
    given: &[Section],
    texts: &[Section],
) -> Result<()> {
    let mut open: Option<Section> = None;
    take_lines(alloc, text, sections, &mut open, given, texts)?;
    if let Some(done) = open {
        sections.push(done)?;
    }
    Ok(())
}

fn take_lines(
    alloc: Global,
    text: &str,
    sections: &mut Vec<Section>,
    open: &mut Option<Section>,
    given: &[Section],
    texts: &[Section],
) -> Result<()> {
    for line in text.lines() {
        let line = line.trim_start();
        if line.is_empty() || line.starts_with('#') {
            continue;
        }
        take_line(alloc, line, sections, open, given, texts)?;
    }
    Ok(())
}

/// Takes up a line: an edit of the bytes of the section that is open, or a heading, which opens one.
fn take_line(
    alloc: Global,
    line: &str,
    sections: &mut Vec<Section>,
    open: &mut Option<Section>,
    given: &[Section],
    texts: &[Section],
) -> Result<()> {
    match Edit::of_line(alloc, line, &[sections, given, texts])? {
        Some(edit) => apply(&edit, open),
        None => begin(alloc, line, sections, open),
    }
}

/// Changes the bytes of the section that is open.
fn apply(edit: &Edit, open: &mut Option<Section>) -> Result<()> {
    match open {
        Some(section) => edit.apply(&mut section.content),
        None => bail!("a line of bytes has no heading"),
    }
}

/// Opens a section in place of the one that is open.
fn begin(
    alloc: Global,
    heading: &str,
    sections: &mut Vec<Section>,
    open: &mut Option<Section>,
) -> Result<()> {
    let next = Section {
        heading: String::from_str(alloc, heading)?,
        content: Vec::new(alloc),
    };
    if let Some(done) = open.replace(next) {
        sections.push(done)?;
    }
    Ok(())
}
