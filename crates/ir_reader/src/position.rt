//! Lines and columns.

ghost use Rattle.std.specs.Prelude.{◌≡◌, ◌≤◌, ◌+◌, length, take, count_by, ◌==◌};
ghost use Rattle.std.specs.List.{suffix_len};
ghost use Rattle.ir_model.specs.TextLimits.{text_limit};
ghost use Rattle.ir_model.specs.Texts.{is_inside_line};

use ir_model::token::Pos;

/// How many bytes stand behind the last line end.
#[tactic(auto, using(crate::proofs::Columns::one_more, crate::proofs::Columns::no_more, crate::proofs::Columns::none_left))]
fn line_bytes(front: &[u8]) -> usize
    ensures within { result ≤ length front.now }
    ensures len { result ≡ suffix_len is_inside_line front.now }
{
    let mut start = front.len();
    while start > 0 && front[start - 1] != b'\n' {
        start -= 1;
    }
    front.len() - start
}

/// The place behind so many bytes: lines and columns count from 1, columns in bytes.
pub fn position(text: &[u8], at: usize) -> Pos
    requires within { at ≤ length text.now }
    requires short { length text.now ≤ text_limit }
    ensures line { result.line ≡ 1 + count_by (λ b. b == 10) (take at text.now) }
    ensures col { result.col ≡ 1 + suffix_len is_inside_line (take at text.now) }
{
    let front = &text[..at];
    let line = 1 + front.iter().filter(|b| **b == b'\n').count();
    let col = 1 + line_bytes(front);
    Pos {
        line: line as u32,
        col: col as u32,
    }
}
