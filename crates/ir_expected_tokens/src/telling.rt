//! The lines on a place where a text leaves the grammar.

ghost use Rattle.std.specs.Prelude.{◌≡◌, ◌≤◌, ◌++◌, length, flat_map, reverse, IfOk, OnOk};
ghost use Rattle.std.specs.List.{prefix_len};
ghost use Rattle.base_names.specs.Names.{continues_word};
ghost use Rattle.ir_reader.specs.Found.{found_of};
ghost use Rattle.ir_expected_tokens.specs.Grammar.{listed};
ghost use Rattle.ir_expected_tokens.specs.Expected.{symbol_rows, classes, expected_of};
ghost use Rattle.ir_expected_tokens.specs.SyntaxLines as lines;

use crate::grammar::{Row, Symbol, class_word, rows};
use crate::stack::may_miss;
use base_names::may_continue_word;
use ir_grammar::vocabulary::{comparison_text, keyword_text, mark_text, operation_text};
use ir_reader::token::Token;
use std::alloc::{AllocError, Global};

/// Bytes of a name or a number that are shown at most.
const SHOWN: usize = 64;

/// How many bytes from the front on may stand in a word.
fn run_len(text: &[u8]) -> usize
    ensures within { result ≤ length text.now }
    ensures len { result ≡ prefix_len continues_word text.now }
{
    text.iter().take_while(|b| may_continue_word(**b)).count()
}

/// The first byte of a text, and those behind it that may stand in a word.
#[tactic(auto, using(crate::proofs::Steps::take_first))]
fn run(text: &[u8]) -> &[u8]
    ensures { result.now ≡ lines.run text.now }
{
    match text {
        [] => text,
        [_, behind @ ..] => &text[..1 + run_len(behind)],
    }
}

/// What is shown of a name or a number.
fn shown(bytes: &[u8]) -> &[u8]
    ensures { result.now ≡ lines.shown bytes.now }
{
    if bytes.len() <= SHOWN {
        bytes
    } else {
        &bytes[..SHOWN]
    }
}

/// Puts these bytes, and then those.
fn put(line: &mut Vec<u8>, first: &[u8], second: &[u8]) -> Result<(), AllocError>
    ensures { OnOk result (line.new.items ≡ line.old.items ++ first.now ++ second.now) }
{
    line.extend_from_slice(first)?;
    line.extend_from_slice(second)?;
    Ok(())
}

/// Puts what a text begins with.
fn put_found(line: &mut Vec<u8>, text: &[u8], token: Token<'_>) -> Result<(), AllocError>
    ensures { OnOk result (line.new.items ≡ line.old.items ++ lines.found_words text.now (found_of token.entry)) }
{
    match token {
        Token::Name(word) => put(line, b"name ", shown(word)),
        Token::Number(_) => put(line, b"number ", shown(run(text))),
        Token::Key(keyword) => put(line, b"reserved ", keyword_text(keyword)),
        Token::Operation(op) => put(line, b"reserved ", operation_text(op)),
        Token::Comparison(op) => put(line, b"reserved ", comparison_text(op)),
        Token::Mark(mark) => put(line, b"mark ", mark_text(mark)),
        Token::Bad => line.extend_from_slice(b"bytes"),
        Token::End => line.extend_from_slice(b"end"),
    }
}

/// Puts the words of the tokens with which these rows begin.
fn put_rows(line: &mut Vec<u8>, rows: &[Row]) -> Result<(), AllocError>
    ensures { OnOk result (line.new.items ≡ line.old.items ++ flat_map lines.spaced (classes (listed (λ more. more.now) rows.now))) }
{
    match rows {
        [] => Ok(()),
        [row, others @ ..] => {
            put(line, b" ", class_word(row.0))?;
            put_rows(line, others)
        }
    }
}

/// Puts the words of the tokens with which a symbol may begin.
fn put_symbol(line: &mut Vec<u8>, symbol: Symbol) -> Result<(), AllocError>
    ensures { OnOk result (line.new.items ≡ line.old.items ++ flat_map lines.spaced (classes (symbol_rows symbol))) }
{
    match symbol {
        Symbol::Token(class) => put(line, b" ", class_word(class)),
        Symbol::Part(part) => put_rows(line, rows(part)),
    }
}

/// Puts the words of the tokens that may stand where these are expected, where the last is expected first.
#[tactic(auto, using(crate::proofs::Steps::words_both))]
fn put_expected(line: &mut Vec<u8>, symbols: &[Symbol]) -> Result<(), AllocError>
    ensures { OnOk result (line.new.items ≡ line.old.items ++ flat_map lines.spaced (expected_of (reverse symbols.now))) }
{
    let Some((symbol, below)) = symbols.split_last() else {
        return Ok(());
    };
    put_symbol(line, *symbol)?;
    if may_miss(*symbol) {
        put_expected(line, below)
    } else {
        Ok(())
    }
}

/// The lines on a place where a text begins with a token, and others are expected.
///
/// # Errors
///
/// Only for want of memory.
pub(crate) fn lines_at(
    alloc: Global,
    text: &[u8],
    token: Token<'_>,
    symbols: &[Symbol],
) -> Result<Vec<u8>, AllocError>
    ensures { IfOk result (λ all. all.items ≡ lines.found_line text.now (found_of token.entry) ++ lines.expected_line (reverse symbols.now)) }
{
    let mut all = Vec::new(alloc);
    all.extend_from_slice(b"found ")?;
    put_found(&mut all, text, token)?;
    put(&mut all, b"\n", b"expected")?;
    put_expected(&mut all, symbols)?;
    all.extend_from_slice(b"\n")?;
    Ok(all)
}
