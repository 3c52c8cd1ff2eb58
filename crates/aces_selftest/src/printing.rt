//! `selftest`: what a self-test tells is printed.

ghost use Rattle.std.specs.Prelude.{◌≤◌};
ghost use Rattle.base_outside.specs.Sinks.{sink};
ghost use Rattle.aces_words.specs.Requests.{Selftest as ToSelftest};
ghost use Rattle.aces_files.specs.CarriesOut.{CarriesOut};
ghost use Rattle.aces_selftest.specs.Answers.{AnswerToSelftest};

use crate::selftesting::selftest;
use aces_reports::{Done, Failure};
use base_outside::{Files, Sink};
use std::alloc::Global;

/// Makes the self-test of a seed and a size, and prints its lines. No file is touched.
pub fn print_selftest<'a, F: Files, O: Sink>(
    alloc: Global,
    seed: u32,
    size: u32,
    files: &F,
    out: &mut O,
) -> Result<Done, Failure<'a>>
    requires least { 1 ≤ size }
    requires most { size ≤ 200 }
    ensures { CarriesOut (AnswerToSelftest seed size) F.Files files.now files.now (ToSelftest seed size) (sink O.Sink out.old) (sink O.Sink out.new) result }
{
    let told = selftest(alloc, seed, size)?;
    match out.put(told.lines.as_slice()) {
        Ok(()) => Ok(told.done),
        Err(_) => Err(Failure::Unprinted),
    }
}
