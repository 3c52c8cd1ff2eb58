//! Tokens of the canonical text: the first of a line stands alone, each other behind a space.

ghost use Rattle.std.specs.Prelude.{◌≡◌, ◌++◌, OnOk};
ghost use Rattle.ir_model.specs.declared.token.Mark.TheVariants as mark;
ghost use Rattle.ir_model.specs.Tokens as token;
ghost use Rattle.ir_printer.specs.Pieces.{first, next, line_end, separator};

use base_names::Name;
use ir_grammar::vocabulary::{comparison_text, keyword_text, mark_text, operation_text};
use ir_model::firmware::{BinOp, CmpOp};
use ir_model::token::{Keyword, Mark};
use std::alloc::AllocError;

/// Writes a keyword as the first token of a line.
#[tactic(auto, unfolding(crate::specs::Pieces::first))]
pub fn start_keyword(out: &mut Vec<u8>, keyword: Keyword) -> Result<(), AllocError>
    ensures { OnOk result (out.new.items ≡ out.old.items ++ first (token.Key keyword)) }
{
    out.extend_from_slice(keyword_text(keyword))?;
    Ok(())
}

/// Writes a word as the first token of a line.
#[tactic(auto, unfolding(crate::specs::Pieces::first))]
pub fn start_word(out: &mut Vec<u8>, word: &Name) -> Result<(), AllocError>
    ensures { OnOk result (out.new.items ≡ out.old.items ++ first (token.Name word.now)) }
{
    out.extend_from_slice(word.as_slice())?;
    Ok(())
}

/// Writes the line that closes a function or a file.
#[tactic(auto, unfolding(crate::specs::Pieces::first))]
pub fn close(out: &mut Vec<u8>) -> Result<(), AllocError>
    ensures { OnOk result (out.new.items ≡ out.old.items ++ (first (token.Sign mark.CloseBrace) ++ line_end)) }
{
    out.extend_from_slice(mark_text(Mark::CloseBrace))?;
    end_line(out)
}

/// Writes the brace that opens a function or a file, and ends its line.
pub fn open(out: &mut Vec<u8>) -> Result<(), AllocError>
    ensures { OnOk result (out.new.items ≡ out.old.items ++ (next (token.Sign mark.OpenBrace) ++ line_end)) }
{
    put_mark(out, Mark::OpenBrace)?;
    end_line(out)
}

/// Ends a line.
pub fn end_line(out: &mut Vec<u8>) -> Result<(), AllocError>
    ensures { OnOk result (out.new.items ≡ out.old.items ++ line_end) }
{
    out.push(b'\n')?;
    Ok(())
}

/// Writes a keyword behind another token.
#[tactic(auto, unfolding(crate::specs::Pieces::next))]
pub fn put_keyword(out: &mut Vec<u8>, keyword: Keyword) -> Result<(), AllocError>
    ensures { OnOk result (out.new.items ≡ out.old.items ++ next (token.Key keyword)) }
{
    out.push(b' ')?;
    out.extend_from_slice(keyword_text(keyword))?;
    Ok(())
}

/// Writes a mark behind another token.
#[tactic(auto, unfolding(crate::specs::Pieces::next))]
pub fn put_mark(out: &mut Vec<u8>, mark: Mark) -> Result<(), AllocError>
    ensures { OnOk result (out.new.items ≡ out.old.items ++ next (token.Sign mark)) }
{
    out.push(b' ')?;
    out.extend_from_slice(mark_text(mark))?;
    Ok(())
}

/// Writes an operation behind another token.
#[tactic(auto, unfolding(crate::specs::Pieces::next))]
pub fn put_operation(out: &mut Vec<u8>, op: BinOp) -> Result<(), AllocError>
    ensures { OnOk result (out.new.items ≡ out.old.items ++ next (token.Operation op)) }
{
    out.push(b' ')?;
    out.extend_from_slice(operation_text(op))?;
    Ok(())
}

/// Writes a comparison behind another token.
#[tactic(auto, unfolding(crate::specs::Pieces::next))]
pub fn put_comparison(out: &mut Vec<u8>, op: CmpOp) -> Result<(), AllocError>
    ensures { OnOk result (out.new.items ≡ out.old.items ++ next (token.Comparison op)) }
{
    out.push(b' ')?;
    out.extend_from_slice(comparison_text(op))?;
    Ok(())
}

/// Writes a word behind another token.
#[tactic(auto, unfolding(crate::specs::Pieces::next))]
pub fn put_word(out: &mut Vec<u8>, word: &Name) -> Result<(), AllocError>
    ensures { OnOk result (out.new.items ≡ out.old.items ++ next (token.Name word.now)) }
{
    out.push(b' ')?;
    out.extend_from_slice(word.as_slice())?;
    Ok(())
}

/// Writes a number in decimal behind another token.
#[tactic(auto, unfolding(crate::specs::Pieces::next))]
pub fn put_number(out: &mut Vec<u8>, number: u32) -> Result<(), AllocError>
    ensures { OnOk result (out.new.items ≡ out.old.items ++ next (token.Number number)) }
{
    let digits = number.to_string(*out.allocator())?;
    out.push(b' ')?;
    out.extend_from_slice(digits.as_bytes())?;
    Ok(())
}

/// Writes what stands before an element of a list that has so many before it: a comma, where there is one.
#[tactic(auto, unfolding(crate::specs::Pieces::separator))]
pub fn put_separator(out: &mut Vec<u8>, before: usize) -> Result<(), AllocError>
    ensures { OnOk result (out.new.items ≡ out.old.items ++ separator before) }
{
    if before == 0 {
        return Ok(());
    }
    put_mark(out, Mark::Comma)
}
