//! The lines of a tape's text.

ghost use Rattle.std.specs.Prelude.{◌≡◌, ◌≤◌, ◌==◌, length, not};
ghost use Rattle.std.specs.List.{prefix_len};
ghost use Rattle.machine_devices.specs.Lines as lines;
ghost use Rattle.machine_devices.specs.Tape as tapes;
ghost use Rattle.base_numerals.specs.Numerals.{numeral};

use base_names::is_word;
use base_numerals::{Numeral, read_numeral};

/// The greatest length of a word on a tape, in bytes.
const WORD_LIMIT: usize = 64;

/// What a line says.
#[derive(Clone, Copy)]
pub(crate) enum Line<'a> {
    /// Nothing: the line has blanks and a comment at most.
    Blank,
    /// A word for the peripheral of this name.
    Entry {
        /// The name.
        name: &'a [u8],
        /// The word.
        word: u32,
    },
    /// Anything else.
    Bad,
}

fn is_blank(byte: u8) -> bool
    ensures { result ≡ tapes.is_blank byte }
{
    byte == b' ' || byte == b'\t'
}

/// How many blanks a text begins with.
fn blanks_len(text: &[u8]) -> usize
    ensures within { result ≤ length text.now }
    ensures len { result ≡ prefix_len tapes.is_blank text.now }
{
    text.iter().take_while(|byte| is_blank(**byte)).count()
}

/// How many bytes stand before the first blank.
fn field_len(text: &[u8]) -> usize
    ensures within { result ≤ length text.now }
    ensures len { result ≡ prefix_len (λ b. not (tapes.is_blank b)) text.now }
{
    text.iter().take_while(|byte| !is_blank(**byte)).count()
}

/// How many bytes stand before a comment.
fn comment_start(line: &[u8]) -> usize
    ensures within { result ≤ length line.now }
    ensures len { result ≡ prefix_len (λ b. not (b == 35)) line.now }
{
    line.iter().take_while(|byte| **byte != b'#').count()
}

/// The first run of bytes that are no blanks, which is empty at the end of a text, and what
/// follows it.
#[tactic(auto, using(crate::proofs::Fields::split_rules))]
fn split_field(text: &[u8]) -> (&[u8], &[u8])
    ensures { tapes.fields_of text.now ≡ lines.with_field result.0.now (tapes.fields_of result.1.now) }
{
    let (_, rest) = text.split_at(blanks_len(text));
    rest.split_at(field_len(rest))
}

/// A line without the carriage return of its end.
#[tactic(auto, using(crate::proofs::Fields::return_rules))]
pub(crate) fn without_return(line: &[u8]) -> &[u8]
    ensures { result.now ≡ lines.without_return line.now }
{
    let Some((last, front)) = line.split_last() else {
        return line;
    };
    if *last == b'\r' { front } else { line }
}

/// What a line without its end says.
#[tactic(auto, unfolding(crate::specs::Tape::row_of))]
pub(crate) fn read_line(line: &[u8]) -> Line<'_>
    ensures { lines.said result ≡ tapes.row_of line.now }
{
    if line.contains(&b'\r') {
        return Line::Bad;
    }
    read_fields(without_comment(line))
}

fn without_comment(line: &[u8]) -> &[u8]
    ensures { result.now ≡ tapes.without_comment line.now }
{
    let (text, _) = line.split_at(comment_start(line));
    text
}

fn read_fields(text: &[u8]) -> Line<'_>
    ensures { lines.said result ≡ tapes.row_of_fields (tapes.fields_of text.now) }
{
    let (name, rest) = split_field(text);
    if name.is_empty() {
        return Line::Blank;
    }
    let (number, rest) = split_field(rest);
    let (extra, _) = split_field(rest);
    if number.is_empty() || !extra.is_empty() {
        return Line::Bad;
    }
    read_entry(name, number)
}

fn read_entry<'a>(name: &'a [u8], number: &[u8]) -> Line<'a>
    ensures { lines.said result ≡ tapes.entry name.now (numeral number.now) }
{
    match read_numeral(number) {
        Numeral::Value(word) if is_word(name) && name.len() <= WORD_LIMIT => {
            Line::Entry { name, word }
        }
        _ => Line::Bad,
    }
}
