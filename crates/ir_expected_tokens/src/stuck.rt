//! Where a text leaves the grammar.

ghost use Rattle.std.specs.Prelude.{◌≡◌, Some, None, false, IfOk, if◌then◌else◌};
ghost use Rattle.ir_reader.specs.Found.{found_of, colon_first};
ghost use Rattle.ir_reader.specs.Scan.{later};
ghost use Rattle.ir_expected_tokens.specs.Stuck as stuck;
ghost use Rattle.ir_expected_tokens.specs.SyntaxLines as lines;

use crate::grammar::Class;
use crate::stack::Stack;
use crate::telling::lines_at;
use ir_reader::lexer::{begins_colon, lex};
use ir_reader::token::Token;
use std::alloc::{AllocError, Global};

/// The class of a token, or of the end.
fn class_of(token: Token<'_>) -> Option<Class>
    ensures { result ≡ stuck.class_of (found_of token.entry) }
{
    match token {
        Token::Name(_) => Some(Class::Name),
        Token::Number(_) => Some(Class::Number),
        Token::Key(keyword) => Some(Class::Key(keyword)),
        Token::Operation(_) => Some(Class::Operation),
        Token::Comparison(_) => Some(Class::Comparison),
        Token::Mark(mark) => Some(Class::Mark(mark)),
        Token::End => Some(Class::End),
        Token::Bad => None,
    }
}

/// Whether it is the end.
fn is_end(token: Token<'_>) -> bool
    ensures { result ≡ stuck.is_end (found_of token.entry) }
{
    matches!(token, Token::End)
}

/// Whether a colon follows a token, with this text behind it.
#[tactic(auto, using(crate::proofs::Steps::later_goes_on, crate::proofs::Steps::later_ends))]
fn colon_follows(token: Token<'_>, behind: &[u8]) -> bool
    ensures { result ≡ colon_first (later token.entry behind.now) }
{
    if is_end(token) {
        return false;
    }
    begins_colon(behind)
}

/// Takes a token of a text, where it may stand there; else nothing changes.
fn take(stack: &mut Stack, token: Token<'_>, behind: &[u8]) -> Result<bool, AllocError>
    ensures taken { IfOk result (λ took. stuck.after stack.old (found_of token.entry) (colon_first (later token.entry behind.now)) ≡ (if took then Some stack.new else None)) }
    ensures same { IfOk result (λ took. took ≡ false → stack.new ≡ stack.old) }
{
    match class_of(token) {
        Some(class) => stack.take(class, colon_follows(token, behind)),
        None => Ok(false),
    }
}

/// So many bytes of a text from its end.
fn last_bytes(text: &[u8], left: usize) -> &[u8]
    ensures { result.now ≡ lines.last_bytes text.now left }
{
    let (_, last) = text.split_at(text.len().saturating_sub(left));
    last
}

/// The lines on the first place where a text leaves the grammar: the token that stands there, and which
/// ones may. Nothing where there is no such place.
///
/// # Errors
///
/// Only for want of memory.
#[tactic(auto, using(crate::proofs::Steps::stuck_here, crate::proofs::Steps::goes_on, crate::proofs::Steps::ends, crate::proofs::Steps::fewer))]
pub fn syntax_lines(alloc: Global, text: &[u8]) -> Result<Vec<u8>, AllocError>
    ensures { IfOk result (λ all. all.items ≡ lines.syntax_lines text.now) }
{
    let mut stack = Stack::new(alloc)?;
    let mut rest = text;
    loop {
        let (token, left, behind) = lex(rest);
        if !take(&mut stack, token, behind)? {
            return lines_at(alloc, last_bytes(text, left), token, stack.symbols());
        }
        if is_end(token) {
            return Ok(Vec::new(alloc));
        }
        rest = behind;
    }
}
