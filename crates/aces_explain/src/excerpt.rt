//! The line of a text in which a fault stands.

ghost use Rattle.std.specs.Prelude.{◌≡◌, ◌≤◌, ◌++◌, ◌∷◌, [], length, map, take, drop, OnOk};
ghost use Rattle.std.specs.List.{prefix_len};
ghost use Rattle.ir_model.specs.Texts.{is_inside_line};
ghost use Rattle.aces_explain.specs.Excerpt as lines;

use ir_model::token::Pos;
use plan_report::text::Text;
use std::alloc::AllocError;

/// How many bytes of a line are shown at most.
const SHOWN_LIMIT: usize = 120;

/// The bytes behind so many line feeds.
fn behind_feeds(bytes: &[u8], feeds: u32) -> &[u8]
    ensures { result.now ≡ lines.behind_feeds feeds bytes.now }
{
    let mut rest = bytes;
    let mut left = feeds;
    while left > 0 {
        let Some((first, behind)) = rest.split_first() else {
            return rest;
        };
        if *first == b'\n' {
            left -= 1;
        }
        rest = behind;
    }
    rest
}

/// How many bytes stand before the end of the line.
fn line_len(text: &[u8]) -> usize
    ensures within { result ≤ length text.now }
    ensures len { result ≡ prefix_len is_inside_line text.now }
{
    text.iter().take_while(|b| **b != b'\n').count()
}

/// The line of this number, from 1, without its line feed.
fn line_at(bytes: &[u8], line: u32) -> &[u8]
    ensures { result.now ≡ lines.line_at bytes.now line }
{
    let rest = behind_feeds(bytes, line.saturating_sub(1));
    &rest[..line_len(rest)]
}

/// The first of these bytes, at most so many.
fn first_bytes(bytes: &[u8], most: usize) -> &[u8]
    ensures { result.now ≡ take most bytes.now }
{
    if most < bytes.len() {
        &bytes[..most]
    } else {
        bytes
    }
}

/// The bytes behind the first, where there are more than so many.
fn behind_bytes(bytes: &[u8], first: usize) -> &[u8]
    ensures { result.now ≡ drop first bytes.now }
{
    if first < bytes.len() {
        &bytes[first..]
    } else {
        b""
    }
}

/// How many bytes of a line are left out at its front.
fn left_out(column: u32) -> usize
    ensures { result ≡ lines.left_out column }
{
    if column as usize <= SHOWN_LIMIT {
        0
    } else {
        column as usize - 1
    }
}

/// What stands below a byte.
fn below(byte: u8) -> &'static [u8]
    ensures { result.now ≡ lines.below byte ∷ [] }
{
    if byte == b'\t' { b"\t" } else { b" " }
}

/// Puts what stands below these bytes.
fn put_below(text: &mut Text, bytes: &[u8]) -> Result<(), AllocError>
    ensures { OnOk result (text.new ≡ text.old ++ map lines.below bytes.now) }
{
    for i in 0..bytes.len() {
        text.put(below(bytes[i]))?;
    }
    Ok(())
}

/// Puts the part of a line that is shown, and below it a `^` at the column.
fn put_marked(text: &mut Text, line: &[u8], column: u32) -> Result<(), AllocError>
    ensures { OnOk result (text.new ≡ text.old ++ lines.marked line.now column) }
{
    let left = left_out(column);
    let part = behind_bytes(line, left);
    let before = (column as usize).saturating_sub(1) - left;
    text.put(first_bytes(part, SHOWN_LIMIT))?;
    text.put(b"\n")?;
    put_below(text, first_bytes(part, before))?;
    text.put(b"^\n")
}

/// Puts the line of a text in which a place stands, as far as it is shown, and a line with a `^` below the place.
///
/// # Errors
///
/// There is no memory for them.
pub(crate) fn put_excerpt(text: &mut Text, bytes: &[u8], pos: Pos) -> Result<(), AllocError>
    ensures { OnOk result (text.new ≡ text.old ++ lines.excerpt bytes.now pos) }
{
    put_marked(text, line_at(bytes, pos.line), pos.col)
}
