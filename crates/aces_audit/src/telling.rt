//! `tables`: what the tables of an image say.

ghost use Rattle.aces_words.specs.Requests.{Tables as ToTables};
ghost use Rattle.base_outside.specs.Sinks.{sink};
ghost use Rattle.aces_files.specs.CarriesOut.{CarriesOut};
ghost use Rattle.aces_audit.specs.Answers.{AnswerToTables};

use crate::asking::{Asked, print_asked};
use aces_reports::{Done, Failure};
use base_outside::{Files, Sink};
use std::alloc::Global;

/// Prints what the tables of an image say, where it passes the checks, and else the answer of `audit`.
pub fn tables<'a, F: Files, O: Sink>(
    alloc: Global,
    image: &'a str,
    files: &mut F,
    out: &mut O,
) -> Result<Done, Failure<'a>>
    ensures { CarriesOut (AnswerToTables image.now) F.Files files.old files.new (ToTables image.now) (sink O.Sink out.old) (sink O.Sink out.new) result }
{
    print_asked(alloc, image, Asked::Tables, files, out)
}
