//! `bin`: the flash bytes of an image, written to a file.

ghost use Rattle.aces_words.specs.Requests.{Bin};
ghost use Rattle.base_outside.specs.Sinks.{SinkState};
ghost use Rattle.aces_files.specs.Answers.{AnswerToBin};
ghost use Rattle.aces_files.specs.CarriesOut.{CarriesOut};

use crate::loading::{image_of, load};
use crate::writing::write;
use aces_reports::{Done, Failure};
use base_outside::Files;
use std::alloc::Global;

/// Writes the flash bytes of an image to a file. The output stays as it is.
pub fn bin<'a, F: Files>(
    alloc: Global,
    image: &'a str,
    file: &'a str,
    files: &mut F,
) -> Result<Done, Failure<'a>>
    ensures { (out : SinkState) → CarriesOut (AnswerToBin image.now file.now) F.Files files.old files.new (Bin image.now file.now) out out result }
{
    let bytes = load(alloc, files, image)?;
    let image = image_of(alloc, image, bytes.as_slice())?;
    match write(files, file, image.flash.as_slice()) {
        Ok(()) => Ok(Done::Completed),
        Err(_) => Err(Failure::Unwritten { name: file }),
    }
}
