//! One call of a case, and what it is to answer.

use crate::content::number_and_rest;
use anyhow::{Result, bail};
use std::alloc::Global;

/// The words of a call, the calls on its sinks that fail, and what is wanted of it.
#[derive(Drop)]
pub(crate) struct Call {
    pub(crate) words: Vec<String>,
    pub(crate) out_fails: Vec<u64>,
    pub(crate) err_fails: Vec<u64>,
    pub(crate) status: u8,
    pub(crate) out: Vec<u8>,
    pub(crate) err: Vec<u8>,
    pub(crate) held: Vec<Held>,
}

/// What a file is to hold after a call.
#[derive(Drop)]
pub(crate) struct Held {
    pub(crate) name: String,
    pub(crate) wanted: Wanted,
}

/// What bytes are wanted.
#[derive(Drop)]
pub(crate) enum Wanted {
    /// These and no others.
    Whole(Vec<u8>),
    /// These from a place on, and any others.
    Part(usize, Vec<u8>),
    /// Any bytes of this number.
    Size(usize),
}

impl Call {
    /// A call of words, which is to end with status 0, print nothing and change no file.
    pub(crate) fn of_words(alloc: Global, text: &str) -> Result<Call> {
        let words = words_of(alloc, text)?;
        Ok(Call {
            words,
            out_fails: Vec::new(alloc),
            err_fails: Vec::new(alloc),
            status: 0,
            out: Vec::new(alloc),
            err: Vec::new(alloc),
            held: Vec::new(alloc),
        })
    }

    /// Takes up what a section says of the call: the word that begins its heading, the rest of it, and its bytes.
    pub(crate) fn add(
        &mut self,
        alloc: Global,
        key: &str,
        rest: &str,
        content: Vec<u8>,
    ) -> Result<()> {
        match key {
            "word" => self.add_word(content),
            "out" => {
                self.out = content;
                Ok(())
            }
            "err" => {
                self.err = content;
                Ok(())
            }
            "holds" => self.hold(alloc, rest, Wanted::Whole(content)),
            "part" => self.hold_part(alloc, rest, content),
            _ => self.add_heading(alloc, key, rest),
        }
    }

    /// Takes up a section of which only the heading counts.
    fn add_heading(&mut self, alloc: Global, key: &str, rest: &str) -> Result<()> {
        match key {
            "out-fails" => replace_numbers(alloc, &mut self.out_fails, rest),
            "err-fails" => replace_numbers(alloc, &mut self.err_fails, rest),
            "status" => self.end_with(alloc, rest),
            "size" => self.hold_size(alloc, rest),
            _ => bail!("no heading begins with {key}"),
        }
    }

    fn add_word(&mut self, content: Vec<u8>) -> Result<()> {
        let word = String::from_utf8(content)?;
        self.words.push(word)?;
        Ok(())
    }

    /// Takes up a status, and the line that may follow it.
    fn end_with(&mut self, alloc: Global, text: &str) -> Result<()> {
        let (status, line) = text.split_once(' ').unwrap_or((text, ""));
        self.status = status.parse()?;
        if !line.is_empty() {
            self.err = format!(in alloc; "{line}\n")?.into_bytes();
        }
        Ok(())
    }

    fn hold_size(&mut self, alloc: Global, text: &str) -> Result<()> {
        let (size, name) = number_and_rest(text)?;
        self.hold(alloc, name, Wanted::Size(size))
    }

    fn hold_part(&mut self, alloc: Global, text: &str, part: Vec<u8>) -> Result<()> {
        let (place, name) = number_and_rest(text)?;
        self.hold(alloc, name, Wanted::Part(place, part))
    }

    fn hold(&mut self, alloc: Global, name: &str, wanted: Wanted) -> Result<()> {
        let name = String::from_str(alloc, name)?;
        self.held.push(Held { name, wanted })?;
        Ok(())
    }
}

/// The words of a text.
fn words_of(alloc: Global, text: &str) -> Result<Vec<String>> {
    let mut words = Vec::new(alloc);
    add_words(alloc, &mut words, text)?;
    Ok(words)
}

fn add_words(alloc: Global, words: &mut Vec<String>, text: &str) -> Result<()> {
    for word in text.split_whitespace() {
        words.push(String::from_str(alloc, word)?)?;
    }
    Ok(())
}

/// Puts the numbers of a text in place of those that are there.
fn replace_numbers(alloc: Global, old: &mut Vec<u64>, text: &str) -> Result<()> {
    *old = numbers(alloc, text)?;
    Ok(())
}

/// Decimal numbers between blanks.
pub(crate) fn numbers(alloc: Global, text: &str) -> Result<Vec<u64>> {
    let mut all = Vec::new(alloc);
    add_numbers(&mut all, text)?;
    Ok(all)
}

fn add_numbers(all: &mut Vec<u64>, text: &str) -> Result<()> {
    for word in text.split_whitespace() {
        let number: u64 = word.parse()?;
        all.push(number)?;
    }
    Ok(())
}
