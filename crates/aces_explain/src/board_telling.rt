//! What is told of a board's text that is refused.

ghost use Rattle.std.specs.Prelude.{◌≡◌, ◌++◌, [], get_or, map, option_map, IfOk, OnOk};
ghost use Rattle.aces_explain.specs.BoardRules.{rule_of};
ghost use Rattle.aces_explain.specs.BoardTold as told;
ghost use Rattle.aces_explain.specs.Explanations.{rule_line};

use crate::board_rules::put_rule;
use crate::key_lines::{key_line, lines};
use plan_board::fault::BoardFault;
use plan_report::text::Text;
use std::alloc::{AllocError, Global};

/// The most bytes that are shown of a line.
const SHOWN_LIMIT: usize = 120;

/// Puts two texts.
fn put_both(text: &mut Text, first: &[u8], second: &[u8]) -> Result<(), AllocError>
    ensures { OnOk result (text.new ≡ text.old ++ (first.now ++ second.now)) }
{
    text.put(first)?;
    text.put(second)
}

/// Puts the words of a fault.
fn put_words(text: &mut Text, fault: &BoardFault) -> Result<(), AllocError>
    ensures { OnOk result (text.new ≡ text.old ++ told.words_of fault.now) }
{
    match fault {
        BoardFault::NoMemory => text.put(b"out of memory"),
        BoardFault::NotToml => text.put(b"not TOML"),
        BoardFault::Missing(key) => put_both(text, b"missing ", key.path().as_bytes()),
        BoardFault::Kind(key) => put_both(text, b"kind ", key.path().as_bytes()),
        BoardFault::Range(key) => put_both(text, b"range ", key.path().as_bytes()),
        BoardFault::DeniedKind(path) => put_both(text, b"kind ", path.as_slice()),
        BoardFault::DeniedRange(path) => put_both(text, b"range ", path.as_slice()),
        BoardFault::Extra(path) => put_both(text, b"extra ", path.as_slice()),
    }
}

/// The path of the key at which a fault stands in the text.
fn standing(fault: &BoardFault) -> Option<&[u8]>
    ensures { option_map (λ path. path.now) result ≡ told.standing fault.now }
{
    match fault {
        BoardFault::NoMemory | BoardFault::NotToml | BoardFault::Missing(_) => None,
        BoardFault::Kind(key) | BoardFault::Range(key) => Some(key.path().as_bytes()),
        BoardFault::DeniedKind(path) | BoardFault::DeniedRange(path) | BoardFault::Extra(path) => {
            Some(path.as_slice())
        }
    }
}

/// The line of a fault, if there is one; from 0.
fn place_of(lines: &[&[u8]], fault: &BoardFault) -> Option<usize>
    ensures { result ≡ told.place_of (map (λ line. line.now) lines.now) fault.now }
{
    match standing(fault) {
        None => None,
        Some(path) => key_line(path, lines),
    }
}

/// A line without the carriage return at its end.
fn without_return(line: &[u8]) -> &[u8]
    ensures { result.now ≡ told.without_return line.now }
{
    match line {
        [front @ .., b'\r'] => front,
        _ => line,
    }
}

/// What is shown of a line.
fn shown_part(line: &[u8]) -> &[u8]
    ensures { result.now ≡ told.shown line.now }
{
    let line = without_return(line);
    if line.len() <= SHOWN_LIMIT {
        return line;
    }
    let (front, _) = line.split_at(SHOWN_LIMIT);
    front
}

/// Puts a line's place, by its number from 0.
fn put_place(text: &mut Text, place: Option<usize>) -> Result<(), AllocError>
    ensures { OnOk result (text.new ≡ text.old ++ told.place_text place) }
{
    let Some(number) = place else {
        return Ok(());
    };
    let Some(number) = (number as u64).checked_add(1) else {
        return Err(AllocError);
    };
    text.put(b":")?;
    text.put_decimal(number)
}

/// Puts the line on a fault.
fn put_head(
    text: &mut Text,
    name: &[u8],
    place: Option<usize>,
    fault: &BoardFault,
) -> Result<(), AllocError>
    ensures { OnOk result (text.new ≡ text.old ++ told.head_line name.now place fault.now) }
{
    text.put(name)?;
    put_place(text, place)?;
    text.put(b": ")?;
    put_words(text, fault)?;
    text.put(b"\n")
}

/// The line of a number; empty for an absent one.
fn line_at<'a>(lines: &[&'a [u8]], number: usize) -> &'a [u8]
    ensures { result.now ≡ get_or (map (λ line. line.now) lines.now) number [] }
{
    match lines.get(number) {
        None => b"",
        Some(line) => *line,
    }
}

/// Puts the line of the text at which a fault stands, if there is one.
fn put_shown(text: &mut Text, lines: &[&[u8]], place: Option<usize>) -> Result<(), AllocError>
    ensures { OnOk result (text.new ≡ text.old ++ told.shown_line (map (λ line. line.now) lines.now) place) }
{
    match place {
        None => Ok(()),
        Some(number) => put_both(text, shown_part(line_at(lines, number)), b"\n"),
    }
}

/// Puts the line on the rule that a text breaks.
fn put_rule_line(text: &mut Text, fault: &BoardFault) -> Result<(), AllocError>
    ensures { OnOk result (text.new ≡ text.old ++ rule_line (rule_of fault.now)) }
{
    text.put(b"rule ")?;
    put_rule(text, fault)?;
    text.put(b"\n")
}

/// Puts what is told of a text by its lines.
fn put_told(
    text: &mut Text,
    name: &[u8],
    lines: &[&[u8]],
    fault: &BoardFault,
) -> Result<(), AllocError>
    ensures { OnOk result (text.new ≡ text.old ++ told.told_in name.now (map (λ line. line.now) lines.now) fault.now) }
{
    let place = place_of(lines, fault);
    put_head(text, name, place, fault)?;
    put_shown(text, lines, place)?;
    put_rule_line(text, fault)
}

/// Why the text of a board is refused: the line on the fault, the line of the text where its key stands, and the rule.
///
/// # Errors
///
/// There is no memory for it.
pub fn board_told(
    alloc: Global,
    name: &[u8],
    text: &[u8],
    fault: &BoardFault,
) -> Result<Vec<u8>, AllocError>
    ensures { IfOk result (λ lines. lines.items ≡ told.board_told name.now text.now fault.now) }
{
    let lines = lines(alloc, text)?;
    let mut told = Text::new(alloc);
    put_told(&mut told, name, &lines, fault)?;
    Ok(told.into_bytes())
}
