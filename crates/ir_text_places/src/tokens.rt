//! Where a token of a text stands.

ghost use Rattle.std.specs.Prelude.{◌≡◌, ◌≤◌, length};
ghost use Rattle.ir_model.specs.Plain.{PlainFirmware};
ghost use Rattle.ir_model.specs.TextLimits.{text_limit};
ghost use Rattle.ir_model.specs.Texts.{IsText};
ghost use Rattle.ir_reader.specs.Scan.{placed};
ghost use Rattle.ir_text_places.specs.Lefts.{left_at};
ghost use Rattle.ir_text_places.specs.Stands.{Stands};

use ir_model::token::Pos;
use ir_reader::lexer::lex;
use ir_reader::position::position;
use ir_reader::token::Token;

// How many bytes stand from a token on, by the tokens before it: 0 at the end.
fn left_at(text: &[u8], before: u64) -> usize
    ensures exact { result ≡ left_at before (placed text.now) }
{
    let mut rest = text;
    let mut more = before;
    while more > 0 {
        let (token, _, behind) = lex(rest);
        match token {
            Token::End => return 0,
            _ => rest = behind,
        }
        more -= 1;
    }
    let (_, left, _) = lex(rest);
    left
}

/// The place of the token of a firmware's text behind so many others, or of the text's end where there are no more tokens.
pub fn token_place(text: &[u8], before: u64) -> Pos
    requires { length text.now ≤ text_limit }
    ensures { (w : PlainFirmware) → IsText w text.now → Stands w text.now before result }
{
    let left = left_at(text, before);
    position(text, text.len().saturating_sub(left))
}
