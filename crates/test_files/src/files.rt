//! What cases do with files beside calls of a program.

use anyhow::{Result, bail};
use base_outside::{Files, MemFiles, read_whole};
use std::alloc::Global;

/// The most bytes of a file that is compared or patched.
const MOST: u64 = 4_194_304;

/// Compares two files.
///
/// # Errors
///
/// They differ, or one of them is not read.
pub fn same(alloc: Global, files: &mut MemFiles, file: &str, other: &str) -> Result<()> {
    let one = bytes_of(alloc, files, file)?;
    compare_content(alloc, files, other, &one)
}

/// Compares what a file holds with these bytes.
fn compare_content(alloc: Global, files: &mut MemFiles, name: &str, wanted: &[u8]) -> Result<()> {
    let bytes = bytes_of(alloc, files, name)?;
    compare(&bytes, wanted)
}

fn compare(bytes: &[u8], wanted: &[u8]) -> Result<()> {
    if bytes != wanted {
        bail!("they differ");
    }
    Ok(())
}

/// Writes a file with the bytes of one, but from a place on those of another.
///
/// # Errors
///
/// The place is no number, the bytes reach past the file's end, a file is not read, or the new one is not written.
pub fn patch(
    alloc: Global,
    files: &mut MemFiles,
    file: &str,
    place: &str,
    code: &str,
    name: &str,
) -> Result<()> {
    let place: usize = place.parse()?;
    let mut bytes = bytes_of(alloc, files, file)?;
    put_patched(alloc, files, &mut bytes, place, code, name)
}

/// Writes a file with these bytes, but from a place on those of a file.
fn put_patched(
    alloc: Global,
    files: &mut MemFiles,
    bytes: &mut [u8],
    place: usize,
    code: &str,
    name: &str,
) -> Result<()> {
    let code = bytes_of(alloc, files, code)?;
    put_over(files, bytes, place, &code, name)
}

fn put_over(
    files: &mut MemFiles,
    bytes: &mut [u8],
    place: usize,
    code: &[u8],
    name: &str,
) -> Result<()> {
    for (k, byte) in code.iter().enumerate() {
        match bytes.get_mut(place.saturating_add(k)) {
            Some(old) => *old = *byte,
            None => bail!("past the end"),
        }
    }
    put(files, name, bytes)
}

/// The bytes of a file.
///
/// # Errors
///
/// It is not read.
pub fn bytes_of(alloc: Global, files: &mut MemFiles, name: &str) -> Result<Vec<u8>> {
    match read_whole(alloc, files, name, MOST) {
        Ok(bytes) => Ok(bytes),
        Err(_) => bail!("not read"),
    }
}

/// Makes a name hold these bytes.
///
/// # Errors
///
/// They are not written.
pub fn put(files: &mut MemFiles, name: &str, bytes: &[u8]) -> Result<()> {
    if files.create(name).is_err() || files.append(name, bytes).is_err() {
        bail!("not written");
    }
    Ok(())
}
