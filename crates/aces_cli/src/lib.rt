//! The commands of the program, as one call over the words behind its name.
#![tactic(auto)]

mod compile;
mod complete;
mod perform;

ghost use Rattle.std.specs.Prelude.{List, map, string_bytes};
ghost use Rattle.base_outside.specs.Calls.{Call, Calls};
ghost use Rattle.aces_cli.specs.Clauses.{Clauses};
ghost use Rattle.aces_cli.specs.Seen.{seen};

use aces_reports::{report, say};
pub use aces_reports::{WordsRefusal, refuse_words};
use aces_words::Command;
use base_outside::{Files, Sink};
use complete::{bounded_calls, good_requests};
use perform::perform;
use std::alloc::Global;

/// Carries out what the words behind the program's name ask for, and answers the exit status: 0 done, 1 a fault in
/// the content of a file or a limit of what is compiled that a firmware passes, 2 words that are no request, 3 a board without
/// room for a firmware, or that denies an address which it reaches, 4 a file that was not read, 5 a file or output that was not written,
/// 6 want of memory, 7 a run that ended by a stop, by a halt other than 0, or by a fault of the source, or a self-test that differs,
/// 8 a no: a stack for which there is no bound, or a smaller stack, or an image that fails a check.
///
/// Where the status is neither 0, 7 nor 8, one line on `err` tells why, but for what `explain` prints, which then tells it. A fault of `err` changes
/// no status.
///
/// Its clauses stand in `specs/Clauses.antt`: what is said of the calls that it made on files, of what it found outside and left there, and of its status.
pub fn aces<F: Files, O: Sink, E: Sink>(
    alloc: Global,
    words: &[String],
    files: &mut F,
    out: &mut O,
    err: &mut E,
) -> u8
    ensures { (calls : List Call) × Calls F.called files.old calls files.new
        × Clauses calls (map string_bytes words.now) (seen F.Files O.Sink E.Sink files.old files.new out.old out.new err.old err.new) result }
{
    match Command::of_words(words) {
        None => {
            say(err, b"aces: usage\n");
            2
        }
        Some(command) => {
            good_requests();
            bounded_calls();
            let ended = perform(alloc, command, files, out);
            report(ended, err)
        }
    }
}
