//! A call of the program over a file that is cut at each of its bytes.

use crate::alike::Alike;
use aces_cli::aces;
use anyhow::Result;
use base_outside::{MemFiles, MemSink};
use std::alloc::Global;
use test_files::{bytes_of, put};

/// How many bytes the program may print.
const ROOM: u32 = 65_536;

/// Calls the program with these words over the file cut to each length, from none of its bytes to all of them, and prints a line for all
/// lengths one behind the other at which it answers the same: the first one, the last one, the status, and the line on `err`. Where that
/// line tells the place behind the last byte, `end` stands for the place.
///
/// # Errors
///
/// The file is not read or not written, a line is not printed, or memory ran out.
pub(crate) fn cuts(
    alloc: Global,
    files: &mut MemFiles,
    out: &mut MemSink,
    file: &str,
    words: &[String],
) -> Result<()> {
    let bytes = bytes_of(alloc, files, file)?;
    let mut open = Alike::new(0, answer(alloc, files, file, &[], words)?);
    for length in 1..=bytes.len() {
        let cut = bytes.get(..length).unwrap_or_default();
        let next = answer(alloc, files, file, cut, words)?;
        open = open.take(alloc, out, u32::try_from(length)?, next)?;
    }
    open.print(alloc, out)
}

/// What the program answers over a file of these bytes: the status, and the line on `err` if there is one.
fn answer(
    alloc: Global,
    files: &mut MemFiles,
    file: &str,
    bytes: &[u8],
    words: &[String],
) -> Result<String> {
    put(files, file, bytes)?;
    let mut out = MemSink::new(alloc, ROOM, Vec::new(alloc))?;
    let mut err = MemSink::new(alloc, ROOM, Vec::new(alloc))?;
    let status = aces(alloc, words, files, &mut out, &mut err);
    let line = str::from_utf8(err.bytes())?.trim_end();
    if line.is_empty() {
        return Ok(format!(in alloc; "{status}")?);
    }
    let end = end_of(alloc, bytes)?;
    match line.split_once(end.as_str()) {
        Some((before, behind)) => Ok(format!(in alloc; "{status} {before}:end:{behind}")?),
        None => Ok(format!(in alloc; "{status} {line}")?),
    }
}

/// The place behind the last byte of a text: its line and its column, as a line on `err` has them.
fn end_of(alloc: Global, text: &[u8]) -> Result<String> {
    let mut line: u64 = 1;
    let mut column: u64 = 1;
    for byte in text {
        if *byte == b'\n' {
            line = line.saturating_add(1);
            column = 1;
        } else {
            column = column.saturating_add(1);
        }
    }
    Ok(format!(in alloc; ":{line}:{column}:")?)
}
