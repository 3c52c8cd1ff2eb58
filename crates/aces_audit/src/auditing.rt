//! `audit`: an image from anyone, checked without its compiler.

ghost use Rattle.aces_words.specs.Requests.{Audit as ToAudit};
ghost use Rattle.base_outside.specs.Sinks.{sink};
ghost use Rattle.aces_files.specs.CarriesOut.{CarriesOut};
ghost use Rattle.aces_audit.specs.Answers.{AnswerToAudit};

use crate::asking::{Asked, print_asked};
use aces_reports::{Done, Failure};
use base_outside::{Files, Sink};
use std::alloc::Global;

/// Checks an image, and prints the answer.
pub fn audit_image<'a, F: Files, O: Sink>(
    alloc: Global,
    image: &'a str,
    files: &mut F,
    out: &mut O,
) -> Result<Done, Failure<'a>>
    ensures { CarriesOut (AnswerToAudit image.now) F.Files files.old files.new (ToAudit image.now) (sink O.Sink out.old) (sink O.Sink out.new) result }
{
    print_asked(alloc, image, Asked::Answer, files, out)
}
