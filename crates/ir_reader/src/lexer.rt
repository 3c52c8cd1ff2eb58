//! Tokens from bytes.

ghost use Rattle.std.specs.Prelude.{◌≡◌, ◌≤◌, ◌<◌, length};
ghost use Rattle.std.specs.List.{prefix_len};
ghost use Rattle.base_names.specs.Names.{continues_word, is_word};
ghost use Rattle.base_numerals.specs.Numerals.{numeral};
ghost use Rattle.ir_model.specs.Texts.{is_blank, is_inside_line, StartsToken};
ghost use Rattle.ir_reader.specs.Found.{found_of, Is, colon_first};
ghost use Rattle.ir_reader.specs.Words.{word_token};
ghost use Rattle.ir_reader.specs.Scan.{placed, GoesOn, IsProper, BeginsWith, lexeme_of, mark_found, number_from, is_digit};
ghost use Rattle.std.specs.Prelude.{true, ◌∷◌};
ghost use Rattle.ir_reader.specs.Scan as scan;

use crate::reserved::word_token;
use crate::token::Token;
use base_names::{may_begin_word, may_continue_word};
use base_numerals::{Numeral, read_numeral};
use ir_model::token::Mark;

fn is_digit(b: u8) -> bool
    ensures { result ≡ is_digit b }
{
    b.is_ascii_digit()
}

fn is_blank(b: u8) -> bool
    ensures { result ≡ is_blank b }
{
    b == b' ' || b == b'\t' || b == b'\r' || b == b'\n'
}

/// How many bytes from the front on may stand in a word.
fn run_len(text: &[u8]) -> usize
    ensures within { result ≤ length text.now }
    ensures len { result ≡ prefix_len continues_word text.now }
{
    text.iter().take_while(|b| may_continue_word(**b)).count()
}

/// How many bytes stand before the end of the line.
fn line_len(text: &[u8]) -> usize
    ensures within { result ≤ length text.now }
    ensures len { result ≡ prefix_len is_inside_line text.now }
{
    text.iter().take_while(|b| **b != b'\n').count()
}

/// The text without blanks and comments at the front.
#[tactic(auto, using(crate::proofs::Scanning::placed_blank, crate::proofs::Scanning::placed_comment, crate::proofs::Scanning::placed_nil))]
fn skip(text: &[u8]) -> &[u8]
    ensures same { placed result.now ≡ placed text.now }
    ensures starts { StartsToken result.now }
{
    let mut rest = text;
    while let Some((first, behind)) = rest.split_first() {
        if is_blank(*first) {
            rest = behind;
        } else if *first == b'#' {
            let (_, line_end) = behind.split_at(line_len(behind));
            rest = line_end;
        } else {
            return rest;
        }
    }
    rest
}

/// The token that a run of bytes is as a number.
fn number(run: &[u8]) -> Token<'static>
    ensures token { found_of result ≡ number_from (numeral run.now) }
    ensures goes_on { GoesOn result }
    ensures proper { IsProper result }
{
    match read_numeral(run) {
        Numeral::Malformed => Token::Bad,
        Numeral::TooWide => Token::Number(1 << 32),
        Numeral::Value(n) => Token::Number(u64::from(n)),
    }
}

fn mark(b: u8) -> Token<'static>
    ensures token { found_of result ≡ mark_found b }
    ensures goes_on { GoesOn result }
    ensures proper { IsProper result }
{
    match b {
        b'{' => Token::Mark(Mark::OpenBrace),
        b'}' => Token::Mark(Mark::CloseBrace),
        b'(' => Token::Mark(Mark::Open),
        b')' => Token::Mark(Mark::Close),
        b'[' => Token::Mark(Mark::OpenSquare),
        b']' => Token::Mark(Mark::CloseSquare),
        b',' => Token::Mark(Mark::Comma),
        b':' => Token::Mark(Mark::Colon),
        b'=' => Token::Mark(Mark::Equal),
        b'*' => Token::Mark(Mark::Star),
        _ => Token::Bad,
    }
}

/// The token of a word at the front.
#[tactic(auto, using(crate::proofs::Scanning::goes_on_word, crate::proofs::Scanning::proper_word))]
fn word(run: &[u8]) -> Token<'_>
    requires { is_word run.now ≡ true }
    ensures token { found_of result ≡ Is (word_token run.now) }
    ensures goes_on { GoesOn result }
    ensures proper { IsProper result }
{
    word_token(run)
}

/// What a text that begins with `-` begins with, and its length.
#[tactic(auto, using(crate::proofs::Scanning::take_dash))]
fn dash(text: &[u8], behind: &[u8]) -> (Token<'static>, usize)
    requires { text.now ≡ 45 ∷ behind.now }
    ensures token { found_of result.0 ≡ (scan.dash behind.now).found }
    ensures len { result.1 ≡ (scan.dash behind.now).len }
    ensures goes_on { GoesOn result.0 }
    ensures proper { IsProper result.0 }
    ensures some { 0 < result.1 }
    ensures within { result.1 ≤ length text.now }
{
    let Some((next, _)) = behind.split_first() else {
        return (Token::Bad, 1);
    };
    if *next == b'>' {
        return (Token::Mark(Mark::Arrow), 2);
    }
    let len = 1 + run_len(behind);
    (number(&text[..len]), len)
}

/// What a text begins with, and its length.
#[tactic(auto, using(crate::proofs::Scanning::word_run, crate::proofs::Scanning::prefix_len_some))]
fn token<'a>(text: &'a [u8], first: u8, behind: &[u8]) -> (Token<'a>, usize)
    requires { text.now ≡ first ∷ behind.now }
    ensures token { found_of result.0 ≡ (lexeme_of text.now).found }
    ensures len { result.1 ≡ (lexeme_of text.now).len }
    ensures goes_on { GoesOn result.0 }
    ensures proper { IsProper result.0 }
    ensures some { 0 < result.1 }
    ensures within { result.1 ≤ length text.now }
{
    if may_begin_word(first) {
        let len = run_len(text);
        return (word(&text[..len]), len);
    }
    if is_digit(first) {
        let len = run_len(text);
        return (number(&text[..len]), len);
    }
    if first == b'-' {
        return dash(text, behind);
    }
    (mark(first), 1)
}

/// The token that a text begins with, behind blanks and comments, how many bytes of the text begin
/// with it, and the text behind it.
#[tactic(auto, using(crate::proofs::Scanning::begins_from, crate::proofs::Scanning::placed_empty))]
pub fn lex(text: &[u8]) -> (Token<'_>, usize, &[u8])
    ensures begins { BeginsWith text.now result.0 result.1 result.2.now }
    ensures proper { IsProper result.0 }
{
    let text = skip(text);
    let Some((first, behind)) = text.split_first() else {
        return (Token::End, 0, text);
    };
    let (token, len) = token(text, *first, behind);
    let (_, rest) = text.split_at(len);
    (token, text.len(), rest)
}

/// Whether a text begins with a colon, behind blanks and comments.
pub fn begins_colon(text: &[u8]) -> bool
    ensures { result ≡ colon_first (placed text.now) }
{
    let (token, _, _) = lex(text);
    matches!(token, Token::Mark(Mark::Colon))
}
