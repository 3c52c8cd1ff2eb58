//! Single tokens at the front of a text.

ghost use Rattle.std.specs.Prelude.{◌≡◌, [], ◌∷◌, OnOk, None};
ghost use Rattle.ir_model.specs.declared.token.Keyword.TheVariants as key;
ghost use Rattle.ir_reader.specs.Machine as Expected;
ghost use Rattle.ir_reader.specs.Reading.{Reads, BehindMark, BehindKey, unit};
ghost use Rattle.ir_reader.specs.Scan.{placed};
ghost use Rattle.ir_reader.specs.Spelling as spelling;

use crate::error::{Fault, FaultKind, ReadError};
use crate::lexer::lex;
use crate::limits::{keep, number_excess, or_else, word_excess};
use crate::token::Token;
use base_names::Name;
use ir_model::token::{Excess, Keyword, Mark};
use std::alloc::Global;

/// What stands at a place may not stand there.
pub fn syntax(left: usize) -> ReadError
    ensures { result ≡ ReadError.Fault (record { kind = FaultKind.Syntax; left = left }) }
{
    ReadError::Fault(Fault {
        kind: FaultKind::Syntax,
        left,
    })
}

/// The mark, and the text behind it.
pub fn mark(mark: Mark, text: &[u8]) -> Result<&[u8], ReadError>
    ensures { Reads (λ x. unit) (λ n. spelling.Sign mark ∷ []) (Expected.Mk mark ∷ []) [] (placed text.now) (λ x. placed x.now) result }
{
    let (token, left, rest) = lex(text);
    if let Token::Mark(found) = token
        && found == mark
    {
        return Ok(rest);
    }
    Err(syntax(left))
}

/// The word `global`, and the text behind it.
pub fn global_word(text: &[u8]) -> Result<&[u8], ReadError>
    ensures { Reads (λ x. unit) (λ n. spelling.Key key.Global ∷ []) (Expected.Kw key.Global ∷ []) [] (placed text.now) (λ x. placed x.now) result }
{
    let (token, left, rest) = lex(text);
    match token {
        Token::Key(Keyword::Global) => Ok(rest),
        _ => Err(syntax(left)),
    }
}

/// The text behind a mark, if it begins with the mark.
pub fn behind_mark(mark: Mark, text: &[u8]) -> Option<&[u8]>
    ensures { BehindMark mark (placed text.now) placed result }
{
    let (token, _, rest) = lex(text);
    match token {
        Token::Mark(found) if found == mark => Some(rest),
        _ => None,
    }
}

/// How many bytes of a text begin with a reserved word, and the text behind it, if it begins with the
/// word.
pub fn behind_word(word: Keyword, text: &[u8]) -> Option<(usize, &[u8])>
    ensures { BehindKey word (placed text.now) placed result }
{
    let (token, left, rest) = lex(text);
    match token {
        Token::Key(found) if found == word => Some((left, rest)),
        _ => None,
    }
}

/// A name whose token may pass something else first, and the text behind it.
#[tactic(auto, using(ir_model::proofs::NoExcess::name_of_word, ir_model::proofs::NoExcess::first_none))]
pub fn name_behind(
    alloc: Global,
    first: Option<Excess>,
    text: &[u8],
) -> Result<(Name, &[u8]), ReadError>
    ensures first { OnOk result (first ≡ None) }
    ensures read { Reads (λ x. x.0) (λ w. spelling.Name w ∷ []) (Expected.Word first ∷ []) [] (placed text.now) (λ x. placed x.1.now) result }
{
    let (token, left, rest) = lex(text);
    let Token::Name(word) = token else {
        return Err(syntax(left));
    };
    keep(or_else(first, word_excess(word)), left)?;
    Ok((Name::of(alloc, word)?, rest))
}

/// A name, and the text behind it.
pub fn name(alloc: Global, text: &[u8]) -> Result<(Name, &[u8]), ReadError>
    ensures { Reads (λ x. x.0) (λ w. spelling.Name w ∷ []) (Expected.Word None ∷ []) [] (placed text.now) (λ x. placed x.1.now) result }
{
    name_behind(alloc, None, text)
}

/// A number, and the text behind it.
#[tactic(auto, using(ir_model::proofs::NoExcess::number_fits))]
pub fn number(text: &[u8]) -> Result<(u32, &[u8]), ReadError>
    ensures { Reads (λ x. x.0) (λ n. spelling.Number n ∷ []) (Expected.Num ∷ []) [] (placed text.now) (λ x. placed x.1.now) result }
{
    let (token, left, rest) = lex(text);
    let Token::Number(number) = token else {
        return Err(syntax(left));
    };
    keep(number_excess(number, None), left)?;
    Ok((number as u32, rest))
}
