//! The lines of a case file that make bytes.

use crate::section::{Section, content_of};
use anyhow::{Context, Result, bail, ensure};
use std::alloc::Global;

/// What a line does to the bytes of its section.
#[derive(Drop)]
pub(crate) enum Edit {
    /// Adds bytes at the end.
    Add(Vec<u8>),
    /// Adds a byte so many times.
    Fill(usize, u8),
    /// Adds a byte until there are so many.
    Upto(usize, u8),
    /// Keeps so many bytes of the beginning.
    Cut(usize),
    /// Writes bytes over those from a place on.
    Put(usize, Vec<u8>),
}

impl Edit {
    /// The edit of a line, if it begins with a mark of one. `as` looks for names in these places, in their order.
    pub(crate) fn of_line(
        alloc: Global,
        line: &str,
        places: &[&[Section]],
    ) -> Result<Option<Edit>> {
        let (mark, rest) = line.split_once(' ').unwrap_or((line, ""));
        match mark {
            "fill" => fill(rest),
            "upto" => upto(rest),
            "cut" => cut(rest),
            "put" => put(alloc, rest),
            "as" => add(copy_from(alloc, rest, places)),
            _ => Edit::of_mark(alloc, mark, rest),
        }
    }

    /// The edit that adds the bytes that a mark and what stands behind it make, if it is the mark of one.
    fn of_mark(alloc: Global, mark: &str, rest: &str) -> Result<Option<Edit>> {
        match mark {
            "|" => add(repeated_lines(alloc, 0, 0, rest)),
            "+" => add(copy_of(alloc, rest.as_bytes())),
            "bytes" => add(numbers(alloc, rest, 1)),
            "halves" => add(numbers(alloc, rest, 2)),
            "words" => add(numbers(alloc, rest, 4)),
            "repeat" => add(repeated_between(alloc, rest)),
            _ => Ok(None),
        }
    }

    /// Changes bytes by the edit.
    pub(crate) fn apply(&self, content: &mut Vec<u8>) -> Result<()> {
        match self {
            Edit::Add(bytes) => Ok(content.extend_from_slice(bytes)?),
            Edit::Fill(count, byte) => lengthen(content, *count, *byte),
            Edit::Upto(wanted, byte) => lengthen_to(content, *wanted, *byte),
            Edit::Cut(wanted) => shorten_to(content, *wanted),
            Edit::Put(place, bytes) => write_over(content, *place, bytes),
        }
    }
}

/// The edit that adds bytes, if they were made.
fn add(bytes: Result<Vec<u8>>) -> Result<Option<Edit>> {
    let bytes = bytes?;
    Ok(Some(Edit::Add(bytes)))
}

fn fill(text: &str) -> Result<Option<Edit>> {
    let (count, byte) = number_and_byte(text)?;
    Ok(Some(Edit::Fill(count, byte)))
}

fn upto(text: &str) -> Result<Option<Edit>> {
    let (length, byte) = number_and_byte(text)?;
    Ok(Some(Edit::Upto(length, byte)))
}

fn cut(text: &str) -> Result<Option<Edit>> {
    Ok(Some(Edit::Cut(text.parse()?)))
}

fn put(alloc: Global, text: &str) -> Result<Option<Edit>> {
    let (place, rest) = number_and_rest(text)?;
    let bytes = numbers(alloc, rest, 1)?;
    Ok(Some(Edit::Put(place, bytes)))
}

fn lengthen(content: &mut Vec<u8>, count: usize, byte: u8) -> Result<()> {
    let wanted = content.len().saturating_add(count);
    content.resize(wanted, byte)?;
    Ok(())
}

fn lengthen_to(content: &mut Vec<u8>, wanted: usize, byte: u8) -> Result<()> {
    ensure!(content.len() <= wanted, "{wanted} is before the end");
    content.resize(wanted, byte)?;
    Ok(())
}

fn shorten_to(content: &mut Vec<u8>, wanted: usize) -> Result<()> {
    ensure!(wanted <= content.len(), "{wanted} is past the end");
    content.truncate(wanted);
    Ok(())
}

fn write_over(content: &mut [u8], place: usize, bytes: &[u8]) -> Result<()> {
    for (k, byte) in bytes.iter().enumerate() {
        match content.get_mut(place.saturating_add(k)) {
            Some(old) => *old = *byte,
            None => bail!("a put at {place} is past the end"),
        }
    }
    Ok(())
}

/// A decimal number at the beginning, and what stands behind the blank that follows it.
pub(crate) fn number_and_rest(text: &str) -> Result<(usize, &str)> {
    let (number, rest) = text.split_once(' ').context("something is missing")?;
    Ok((number.parse()?, rest))
}

/// A decimal number, and a byte in hexadecimal behind the blank that follows it.
fn number_and_byte(text: &str) -> Result<(usize, u8)> {
    let (number, byte) = number_and_rest(text)?;
    Ok((number, u8::from_str_radix(byte, 16)?))
}

/// Numbers in hexadecimal between blanks, each as so many bytes, at most 4, with the lowest one first.
fn numbers(alloc: Global, text: &str, width: u32) -> Result<Vec<u8>> {
    let mut all = Vec::new(alloc);
    add_numbers(&mut all, text, width)?;
    Ok(all)
}

fn add_numbers(all: &mut Vec<u8>, text: &str, width: u32) -> Result<()> {
    for word in text.split_whitespace() {
        add_number(all, word, width)?;
    }
    Ok(())
}

fn add_number(all: &mut Vec<u8>, word: &str, width: u32) -> Result<()> {
    let number = u32::from_str_radix(word, 16)?;
    let rest = add_low_bytes(all, number, width)?;
    ensure!(rest == 0, "{word} is too wide");
    Ok(())
}

/// Adds so many bytes of a number, with the lowest one first, and answers what is left of it.
fn add_low_bytes(all: &mut Vec<u8>, number: u32, width: u32) -> Result<u32> {
    let mut rest = number;
    for _ in 0..width {
        all.push((rest & 0xff) as u8)?;
        rest >>= 8;
    }
    Ok(rest)
}

/// A line of a text for each number between the two that stand before it.
fn repeated_between(alloc: Global, text: &str) -> Result<Vec<u8>> {
    let (first, rest) = number_and_rest(text)?;
    let (last, line) = number_and_rest(rest)?;
    repeated_lines(alloc, first, last, line)
}

/// A line of a text for each number from the first to the last, which stands in it for each `%`. A single line is left as it is.
fn repeated_lines(alloc: Global, first: usize, last: usize, text: &str) -> Result<Vec<u8>> {
    let mut all = Vec::new(alloc);
    add_lines(alloc, &mut all, first, last, text)?;
    Ok(all)
}

fn add_lines(
    alloc: Global,
    all: &mut Vec<u8>,
    first: usize,
    last: usize,
    text: &str,
) -> Result<()> {
    for number in first..=last {
        if last == 0 {
            all.extend_from_slice(text.as_bytes())?;
        } else {
            add_line(alloc, all, number, text)?;
        }
        all.push(b'\n')?;
    }
    Ok(())
}

/// Adds a text with a number for each `%`.
fn add_line(alloc: Global, all: &mut Vec<u8>, number: usize, text: &str) -> Result<()> {
    for byte in text.bytes() {
        if byte == b'%' {
            add_decimal(alloc, all, number)?;
        } else {
            all.push(byte)?;
        }
    }
    Ok(())
}

fn add_decimal(alloc: Global, all: &mut Vec<u8>, number: usize) -> Result<()> {
    let digits = format!(in alloc; "{number}")?;
    all.extend_from_slice(digits.as_bytes())?;
    Ok(())
}

fn copy_of(alloc: Global, bytes: &[u8]) -> Result<Vec<u8>> {
    Ok(bytes.to_vec(alloc)?)
}

fn copy_from(alloc: Global, name: &str, places: &[&[Section]]) -> Result<Vec<u8>> {
    copy_of(alloc, bytes_named(name, places)?)
}

/// The bytes of the file or the text of this name.
fn bytes_named<'a>(name: &str, places: &[&'a [Section]]) -> Result<&'a [u8]> {
    for sections in places {
        if let Some(content) = content_of(sections, name) {
            return Ok(content);
        }
    }
    bail!("nothing has the name {name}")
}
