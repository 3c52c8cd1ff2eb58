//! Cases that are run and compared.

use crate::call::{Call, Held, Wanted};
use crate::case::Case;
use crate::program::Program;
use crate::section::Section;
use anyhow::{Context, Result, bail, ensure};
use base_outside::{MemEntry, MemFiles, MemSink, names_differ};
use std::alloc::Global;

/// How many bytes each sink takes.
const ROOM: u32 = 1_048_576;

/// A name, and the bytes that it held before a call, if it was there.
#[derive(Drop)]
struct Before<'a> {
    name: &'a str,
    bytes: Option<Vec<u8>>,
}

/// Runs a case. An error tells what differs first, or what is wrong with the text of the case.
pub(crate) fn run_case<P: Program>(
    alloc: Global,
    program: &P,
    text: &str,
    given: &[Section],
    texts: &[Section],
) -> Result<()> {
    let Case {
        names,
        entries,
        fails,
        keep,
        calls,
    } = Case::read(alloc, text, given, texts)?;
    let files = files_of(alloc, entries, fails, keep);
    run_over(alloc, program, names.as_slice(), calls.as_slice(), files)
}

fn files_of(alloc: Global, entries: Vec<MemEntry>, fails: Vec<u64>, keep: u32) -> Result<MemFiles> {
    ensure!(names_differ(&entries), "two files have one name");
    Ok(MemFiles::new(alloc, entries, fails, keep)?)
}

/// Runs calls over files, if they were made.
fn run_over<P: Program>(
    alloc: Global,
    program: &P,
    names: &[String],
    calls: &[Call],
    files: Result<MemFiles>,
) -> Result<()> {
    let mut files = files?;
    run_calls(alloc, program, names, calls, &mut files)
}

fn run_calls<P: Program>(
    alloc: Global,
    program: &P,
    names: &[String],
    calls: &[Call],
    files: &mut MemFiles,
) -> Result<()> {
    let mut known = held_before(alloc, names, files)?;
    compare_calls(alloc, program, calls, files, &mut known)
}

fn compare_calls<P: Program>(
    alloc: Global,
    program: &P,
    calls: &[Call],
    files: &mut MemFiles,
    known: &mut [Before<'_>],
) -> Result<()> {
    for call in calls {
        compare_call(alloc, program, call, files, known)?;
    }
    Ok(())
}

fn held_before<'a>(
    alloc: Global,
    names: &'a [String],
    files: &MemFiles,
) -> Result<Vec<Before<'a>>> {
    let mut known = Vec::new(alloc);
    add_held(alloc, &mut known, names, files)?;
    Ok(known)
}

fn add_held<'a>(
    alloc: Global,
    known: &mut Vec<Before<'a>>,
    names: &'a [String],
    files: &MemFiles,
) -> Result<()> {
    for name in names {
        let name = name.as_str();
        let bytes = copy_of(alloc, files.contents(name))?;
        known.push(Before { name, bytes })?;
    }
    Ok(())
}

/// Makes a call and compares what it leaves.
fn compare_call<P: Program>(
    alloc: Global,
    program: &P,
    call: &Call,
    files: &mut MemFiles,
    known: &mut [Before<'_>],
) -> Result<()> {
    run_call(alloc, program, call, files)?;
    for before in known {
        compare_file(alloc, before, files, &call.held)?;
    }
    all_there(files, &call.held)
}

/// Tells the first file that is to hold something and is not there.
fn all_there(files: &MemFiles, held: &[Held]) -> Result<()> {
    for fact in held {
        let name = fact.name.as_str();
        ensure!(files.contents(name).is_some(), "{name} is not there");
    }
    Ok(())
}

/// Makes a call and compares what it prints and answers.
fn run_call<P: Program>(
    alloc: Global,
    program: &P,
    call: &Call,
    files: &mut MemFiles,
) -> Result<()> {
    let mut out = sink(alloc, &call.out_fails)?;
    run_with_out(alloc, program, call, files, &mut out)
}

fn run_with_out<P: Program>(
    alloc: Global,
    program: &P,
    call: &Call,
    files: &mut MemFiles,
    out: &mut MemSink,
) -> Result<()> {
    let mut err = sink(alloc, &call.err_fails)?;
    let status = program.call(alloc, &call.words, files, out, &mut err);
    compare_printed(call, status, out.bytes(), err.bytes())
}

/// A sink on which these calls fail.
fn sink(alloc: Global, fails: &Vec<u64>) -> Result<MemSink> {
    let fails = fails.clone()?;
    Ok(MemSink::new(alloc, ROOM, fails)?)
}

fn compare_printed(call: &Call, status: u8, out: &[u8], err: &[u8]) -> Result<()> {
    compare("err", err, &call.err)?;
    compare("out", out, &call.out)?;
    ensure!(status == call.status, "status is {status}");
    Ok(())
}

fn copy_of(alloc: Global, bytes: Option<&[u8]>) -> Result<Option<Vec<u8>>> {
    match bytes {
        Some(bytes) => Ok(Some(bytes.to_vec(alloc)?)),
        None => Ok(None),
    }
}

/// Tells the first line in which a text differs from what is wanted.
fn compare(what: &str, bytes: &[u8], wanted: &[u8]) -> Result<()> {
    if bytes == wanted {
        return Ok(());
    }
    let text = str::from_utf8(bytes).context(what)?;
    let wanted = str::from_utf8(wanted).context(what)?;
    compare_lines(what, text, wanted)
}

fn compare_lines(what: &str, text: &str, wanted: &str) -> Result<()> {
    let mut others = wanted.lines();
    for line in text.lines() {
        ensure!(others.next() == Some(line), "{what} has {line:?}");
    }
    bail!("{what} ends too early")
}

/// Compares what a file holds with what is said of it, and else with what it held before.
fn compare_file(
    alloc: Global,
    before: &mut Before<'_>,
    files: &MemFiles,
    held: &[Held],
) -> Result<()> {
    let name = before.name;
    let bytes = files.contents(name);
    let told = is_told(name, bytes, held)?;
    if is_same(bytes, &before.bytes) {
        return Ok(());
    }
    ensure!(told, "{name} has changed");
    before.bytes = copy_of(alloc, bytes)?;
    Ok(())
}

/// Whether any facts name a file; each of them has to hold.
fn is_told(name: &str, bytes: Option<&[u8]>, held: &[Held]) -> Result<bool> {
    let mut told = false;
    for fact in held {
        if fact.name.as_str() == name {
            ensure!(is_wanted(bytes, &fact.wanted), "{name} is not as wanted");
            told = true;
        }
    }
    Ok(told)
}

fn is_same(bytes: Option<&[u8]>, old: &Option<Vec<u8>>) -> bool {
    match (bytes, old) {
        (Some(bytes), Some(old)) => bytes == old.as_slice(),
        (None, None) => true,
        _ => false,
    }
}

fn is_wanted(bytes: Option<&[u8]>, wanted: &Wanted) -> bool {
    let Some(bytes) = bytes else {
        return false;
    };
    match wanted {
        Wanted::Whole(all) => bytes == all.as_slice(),
        Wanted::Part(place, part) => match bytes.get(*place..) {
            Some(rest) => rest.starts_with(part),
            None => false,
        },
        Wanted::Size(size) => bytes.len() == *size,
    }
}
