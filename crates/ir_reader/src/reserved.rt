//! The reserved words.

ghost use Rattle.std.specs.Prelude.{◌≡◌};
ghost use Rattle.ir_reader.specs.Words as words;
ghost use Rattle.ir_reader.specs.Found.{found_of};
ghost use Rattle.ir_reader.specs.Words.{word_token};
ghost use Rattle.ir_reader.specs.Found.{Is};

use crate::token::Token;
use ir_grammar::vocabulary::{
    COMPARISONS, KEYWORDS, OPERATIONS, comparison_text, keyword_text, operation_text,
};
use ir_model::firmware::{BinOp, CmpOp};
use ir_model::token::Keyword;

fn keyword_of(word: &[u8]) -> Option<Keyword>
    ensures { result ≡ words.keyword_of word.now }
{
    KEYWORDS
        .iter()
        .copied()
        .find(|keyword| word == keyword_text(*keyword))
}

fn operation_of(word: &[u8]) -> Option<BinOp>
    ensures { result ≡ words.operation_of word.now }
{
    OPERATIONS
        .iter()
        .copied()
        .find(|operation| word == operation_text(*operation))
}

fn comparison_of(word: &[u8]) -> Option<CmpOp>
    ensures { result ≡ words.comparison_of word.now }
{
    COMPARISONS
        .iter()
        .copied()
        .find(|comparison| word == comparison_text(*comparison))
}

/// The token that a word is. No reserved word has more than six bytes.
#[tactic(auto, using(crate::proofs::Tables::long_word))]
pub fn word_token(word: &[u8]) -> Token<'_>
    ensures { found_of result ≡ Is (word_token word.now) }
{
    if word.len() > 6 {
        return Token::Name(word);
    }
    if let Some(keyword) = keyword_of(word) {
        return Token::Key(keyword);
    }
    if let Some(operation) = operation_of(word) {
        return Token::Operation(operation);
    }
    match comparison_of(word) {
        Some(comparison) => Token::Comparison(comparison),
        None => Token::Name(word),
    }
}
