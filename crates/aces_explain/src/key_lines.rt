//! Where a key stands in a board's text.

ghost use Rattle.std.specs.Prelude.{◌≡◌, ◌≤◌, ◌==◌, length, map, position, option_copied, option_map, nat_eq, IfOk};
ghost use Rattle.std.specs.List.{prefix_len};
ghost use Rattle.aces_explain.specs.KeyLines as places;

use std::alloc::{AllocError, Global};

/// Where the first line of a text ends.
fn line_feed(text: &[u8]) -> Option<usize>
    ensures { result ≡ position (λ b. nat_eq b 10) text.now }
{
    text.iter().position(|byte| *byte == b'\n')
}

/// The lines of a text.
#[tactic(auto, using(crate::proofs::BoardLines::within, crate::proofs::BoardLines::begun, crate::proofs::BoardLines::one_more, crate::proofs::BoardLines::ended))]
pub(crate) fn lines(alloc: Global, text: &[u8]) -> Result<Vec<&[u8]>, AllocError>
    ensures { IfOk result (λ found. map (λ line. line.now) found.items ≡ places.lines_of text.now) }
{
    let mut found = Vec::new(alloc);
    let mut rest = text;
    while let Some(end) = line_feed(rest) {
        let (line, behind) = rest.split_at(end);
        found.push(line)?;
        let (_, behind) = behind.split_at(1);
        rest = behind;
    }
    found.push(rest)?;
    Ok(found)
}

/// Whether a byte is a space or a tab.
fn is_blank(byte: u8) -> bool
    ensures { result ≡ places.is_blank byte }
{
    byte == b' ' || byte == b'\t'
}

/// How many blanks a text begins with.
fn blanks_len(text: &[u8]) -> usize
    ensures within { result ≤ length text.now }
    ensures len { result ≡ prefix_len places.is_blank text.now }
{
    text.iter().take_while(|byte| is_blank(**byte)).count()
}

/// What stands behind the blanks in front.
fn behind_blanks(text: &[u8]) -> &[u8]
    ensures { result.now ≡ places.unindented text.now }
{
    let (_, rest) = text.split_at(blanks_len(text));
    rest
}

/// Whether the first byte is this one.
fn begins_with(byte: u8, text: &[u8]) -> bool
    ensures { result ≡ places.begins_with byte text.now }
{
    match text {
        [] => false,
        [first, ..] => *first == byte,
    }
}

/// Whether, blanks aside, a line begins with a word and this byte.
fn begins_with_word(word: &[u8], byte: u8, line: &[u8]) -> bool
    ensures { result ≡ places.begins_with_word word.now byte line.now }
{
    let text = behind_blanks(line);
    if text.len() < word.len() {
        return false;
    }
    let (front, rest) = text.split_at(word.len());
    front == word && begins_with(byte, behind_blanks(rest))
}

/// Whether, blanks aside, a line begins with `[`.
fn is_header(line: &[u8]) -> bool
    ensures { result ≡ places.is_header line.now }
{
    begins_with(b'[', behind_blanks(line))
}

/// Whether a line is the header of this path.
fn is_header_of(path: &[u8], line: &[u8]) -> bool
    ensures { result ≡ places.is_header_of path.now line.now }
{
    match behind_blanks(line) {
        [b'[', rest @ ..] => begins_with_word(path, b']', rest),
        _ => false,
    }
}

/// Where the first point of a path stands.
fn point(path: &[u8]) -> Option<usize>
    ensures { result ≡ position (λ b. nat_eq b 46) path.now }
{
    path.iter().position(|byte| *byte == b'.')
}

/// The table and the word of a path.
pub(crate) fn parts(path: &[u8]) -> Option<(&[u8], &[u8])>
    ensures { option_map (λ x. (x.0.now, x.1.now)) result ≡ places.parts_of path.now }
{
    match point(path) {
        None => None,
        Some(at) => {
            let (table, rest) = path.split_at(at);
            let (_, word) = rest.split_at(1);
            Some((table, word))
        }
    }
}

/// Whether a line below this header is that of a path's word.
fn is_word_line(path: &[u8], header: &[u8], line: &[u8]) -> bool
    ensures { result ≡ places.is_word_line (places.parts_of path.now) header.now line.now }
{
    match parts(path) {
        None => false,
        Some((table, word)) => is_header_of(table, header) && begins_with_word(word, b'=', line),
    }
}

/// Whether a line below this header, if there is one, has the value of a path.
fn is_value_line(path: &[u8], header: Option<&[u8]>, line: &[u8]) -> bool
    ensures { result ≡ places.is_value_line path.now (option_copied header.entry) line.now }
{
    match header {
        None => begins_with_word(path, b'=', line),
        Some(header) => is_word_line(path, header, line),
    }
}

/// Whether a line below this header, if there is one, is that of a path.
fn is_key_line(path: &[u8], header: Option<&[u8]>, line: &[u8]) -> bool
    ensures { result ≡ places.is_key_line path.now (option_copied header.entry) line.now }
{
    is_header_of(path, line) || is_value_line(path, header, line)
}

/// The number of the first line of a path, from 0.
pub(crate) fn key_line(path: &[u8], lines: &[&[u8]]) -> Option<usize>
    ensures { result ≡ places.key_line path.now (map (λ line. line.now) lines.now) }
{
    let mut header = None;
    for (number, line) in lines.iter().enumerate() {
        if is_key_line(path, header, line) {
            return Some(number);
        }
        if is_header(line) {
            header = Some(*line);
        }
    }
    None
}
