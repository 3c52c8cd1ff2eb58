//! Words that the system did not give.

ghost use Rattle.std.specs.Prelude.{◌≡◌};
ghost use Rattle.base_outside.specs.Sinks.{PutsLine, sink};
ghost use Rattle.aces_reports.specs.WordsRefusals.{refusal_status, refusal_line};

use crate::telling::say;
use base_outside::Sink;

/// Why the words behind the program's name are missing.
#[derive(Clone, Copy)]
pub enum WordsRefusal {
    /// One of them is no text.
    NotText,
    /// There was no memory for them.
    NoMemory,
}

/// Puts the line on missing words, and answers the exit status: 2, as for words that are no request, or 6 for want
/// of memory. A fault of `err` changes no status. It takes no memory.
pub fn refuse_words<E: Sink>(refusal: WordsRefusal, err: &mut E) -> u8
    ensures status { result ≡ refusal_status refusal }
    ensures line { PutsLine (sink E.Sink err.old) (sink E.Sink err.new) (refusal_line refusal) }
{
    match refusal {
        WordsRefusal::NotText => {
            say(err, b"aces: usage\n");
            2
        }
        WordsRefusal::NoMemory => {
            say(err, b"aces: out of memory\n");
            6
        }
    }
}
