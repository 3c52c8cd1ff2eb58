//! The cases of a file, and how many of them agree.

use crate::program::Program;
use crate::running::run_case;
use crate::section::{Section, read_sections};
use anyhow::{Error, Result, bail};
use std::alloc::Global;
use std::process::ExitCode;
use std::rt::{Env, Files};
use std::{env, fs};

/// How many cases agreed so far, and how many did not.
#[derive(Drop)]
struct Tally {
    agree: u64,
    differ: u64,
}

/// What cases are given: the texts of all files so far, and what else stands before the first case of the last one.
#[derive(Drop)]
struct Heads {
    texts: Vec<Section>,
    given: Vec<Section>,
}

/// Runs the cases of the files that the words behind the program's name are, one file after the other. Prints a line for each case that
/// differs, and how many agree; the exit status is 0 where all do, and else 1.
///
/// # Errors
///
/// There is no memory, a file cannot be read, or a line cannot be printed.
pub fn run_files<P: Program>(
    rt: &(impl Env + Files + Alloc + Print),
    alloc: Global,
    program: &P,
) -> Result<ExitCode> {
    let mut tally = Tally {
        agree: 0,
        differ: 0,
    };
    run_all(rt, alloc, program, &mut tally)?;
    let Tally { agree, differ } = tally;
    println!(rt; "{agree} cases agree")?;
    if differ == 0 {
        return Ok(ExitCode::SUCCESS);
    }
    println!(rt; "{differ} differ")?;
    Ok(ExitCode::from(1))
}

fn run_all<P: Program>(
    rt: &(impl Env + Files + Alloc + Print),
    alloc: Global,
    program: &P,
    tally: &mut Tally,
) -> Result<()> {
    let mut heads = Heads {
        texts: Vec::new(alloc),
        given: Vec::new(alloc),
    };
    run_each(rt, alloc, program, &mut heads, tally)
}

fn run_each<P: Program>(
    rt: &(impl Env + Files + Alloc + Print),
    alloc: Global,
    program: &P,
    heads: &mut Heads,
    tally: &mut Tally,
) -> Result<()> {
    for name in env::args(rt)?.skip(1) {
        run_named(rt, alloc, program, name.as_str(), heads, tally)?;
    }
    Ok(())
}

fn run_named<P: Program>(
    rt: &(impl Env + Files + Alloc + Print),
    alloc: Global,
    program: &P,
    file: &str,
    heads: &mut Heads,
    tally: &mut Tally,
) -> Result<()> {
    let text = fs::read_to_string(rt, file)?;
    run_file(rt, alloc, program, file, &text, heads, tally)
}

/// Runs the cases of a file, and prints a line for each that differs. What stands before its first case holds for all of them,
/// and its texts for later files too.
///
/// # Errors
///
/// There is no memory, or a line could not be printed.
fn run_file<P: Program>(
    rt: &impl Print,
    alloc: Global,
    program: &P,
    file: &str,
    text: &str,
    heads: &mut Heads,
    tally: &mut Tally,
) -> Result<()> {
    heads.given = Vec::new(alloc);
    for (number, piece) in text.split("\ncase ").enumerate() {
        if number == 0 {
            tell(rt, tally, file, "its head", read_head(alloc, piece, heads))?;
        } else {
            run_piece(rt, alloc, program, file, piece, heads, tally)?;
        }
    }
    Ok(())
}

/// Runs a case, which begins with its name.
fn run_piece<P: Program>(
    rt: &impl Print,
    alloc: Global,
    program: &P,
    file: &str,
    piece: &str,
    heads: &Heads,
    tally: &mut Tally,
) -> Result<()> {
    let (name, body) = piece.split_once('\n').unwrap_or((piece, ""));
    let outcome = run_case(alloc, program, body, &heads.given, &heads.texts);
    if outcome.is_ok() {
        tally.agree = tally.agree.saturating_add(1);
    }
    tell(rt, tally, file, name, outcome)
}

/// Counts a case if it differs, and prints why.
fn tell(
    rt: &impl Print,
    tally: &mut Tally,
    file: &str,
    name: &str,
    outcome: Result<()>,
) -> Result<()> {
    match outcome {
        Ok(()) => Ok(()),
        Err(error) => tell_error(rt, tally, file, name, &error),
    }
}

fn tell_error(
    rt: &impl Print,
    tally: &mut Tally,
    file: &str,
    name: &str,
    error: &Error,
) -> Result<()> {
    tally.differ = tally.differ.saturating_add(1);
    println!(rt; "{file}: {name}: {error}")?;
    Ok(())
}

/// Reads what stands before the first case of a file.
fn read_head(alloc: Global, text: &str, heads: &mut Heads) -> Result<()> {
    for section in read_sections(alloc, text, &[], &heads.texts)? {
        add(heads, section)?;
    }
    Ok(())
}

fn add(heads: &mut Heads, section: Section) -> Result<()> {
    if is_text(&section)? {
        heads.texts.push(section)?;
    } else {
        heads.given.push(section)?;
    }
    Ok(())
}

/// Whether a section is a text, and not a file or a name that is not there.
fn is_text(section: &Section) -> Result<bool> {
    match section.parts() {
        ("text", _) => Ok(true),
        ("file" | "gone", _) => Ok(false),
        (key, _) => bail!("no heading before the first case begins with {key}"),
    }
}
