//! Names: the words that firmware texts, tapes and images give to their parts.
#![tactic(auto)]

ghost use Rattle.std.specs.Prelude.{◌≡◌};
ghost use Rattle.std.specs.List.{list_any};
ghost use Rattle.std.specs.Str.{bytes_eq};
ghost use Rattle.base_names.specs.Names as names;

mod name;
pub mod reserved;

pub use name::{Name, NameRefusal};

/// The greatest length of a name, in bytes.
pub const NAME_LIMIT: usize = 64;

/// Whether a byte may begin a word: an ASCII letter or `_`.
pub fn may_begin_word(byte: u8) -> bool
    ensures { result ≡ names.begins_word byte }
{
    matches!(byte, b'A'..=b'Z' | b'a'..=b'z' | b'_')
}

/// Whether a byte may stand behind the first of a word: an ASCII letter, a digit, `_` or `.`.
pub fn may_continue_word(byte: u8) -> bool
    ensures { result ≡ names.continues_word byte }
{
    may_begin_word(byte) || matches!(byte, b'0'..=b'9' | b'.')
}

/// Whether the bytes are a word, of any length but 0.
#[tactic(auto, using(crate::proofs::Parts::is_word_at))]
pub fn is_word(bytes: &[u8]) -> bool
    ensures { result ≡ names.is_word bytes.now }
{
    match bytes {
        [] => false,
        [first, rest @ ..] => may_begin_word(*first) && do_all_continue(rest),
    }
}

fn do_all_continue(bytes: &[u8]) -> bool
    ensures { result ≡ names.all_continue bytes.now }
{
    bytes.iter().all(|byte| may_continue_word(*byte))
}

fn is_text(word: &[u8], text: &[u8]) -> bool
    ensures { result ≡ bytes_eq word.now text.now }
{
    word == text
}

fn is_one_of(word: &[u8], table: &[&[u8]]) -> bool
    ensures { result ≡ list_any (λ text. bytes_eq word.now text.now) table.now }
{
    table.iter().any(|text| is_text(word, text))
}

/// Whether the bytes are a word that no name may be.
#[tactic(auto, using(crate::proofs::Parts::is_reserved_tables))]
pub fn is_reserved(word: &[u8]) -> bool
    ensures { result ≡ names.is_reserved word.now }
{
    is_one_of(word, &reserved::DECLARATION_WORDS)
        || is_one_of(word, &reserved::INSTRUCTION_WORDS)
        || is_one_of(word, &reserved::TYPE_WORDS)
        || is_one_of(word, &reserved::OPERATION_WORDS)
        || is_one_of(word, &reserved::COMPARISON_WORDS)
}

/// Whether the bytes are a name: a word of at most `NAME_LIMIT` bytes that is not reserved.
#[tactic(auto, unfolding(crate::specs::Names::is_name))]
pub fn is_name(bytes: &[u8]) -> bool
    ensures { result ≡ names.is_name bytes.now }
{
    is_word(bytes) && bytes.len() <= NAME_LIMIT && !is_reserved(bytes)
}
