//! What is wrong with a text, in the words of the line that `check` prints.

ghost use Rattle.std.specs.Prelude.{◌≡◌, ◌++◌, OnOk};
ghost use Rattle.aces_reports.specs.FaultLines as lines;
ghost use Rattle.aces_explain.specs.Explanations as explanations;

use aces_reports::limit_word;
use ir_model::check::{CheckKind, CheckPlace};
use ir_model::token::Excess;
use plan_report::text::Text;
use std::alloc::AllocError;

/// Puts two texts.
fn put_both(text: &mut Text, first: &[u8], second: &[u8]) -> Result<(), AllocError>
    ensures { OnOk result (text.new ≡ text.old ++ (first.now ++ second.now)) }
{
    text.put(first)?;
    text.put(second)
}

/// Puts what a token passes.
pub(crate) fn put_passed(text: &mut Text, excess: Excess) -> Result<(), AllocError>
    ensures { OnOk result (text.new ≡ text.old ++ explanations.excess_text excess) }
{
    match excess {
        Excess::TooWide => text.put(b"number too wide"),
        Excess::Passes(which) => put_both(text, b"limit ", limit_word(which)),
    }
}

/// Puts how many bytes a frame would have.
fn put_frame(text: &mut Text, bytes: u32) -> Result<(), AllocError>
    ensures { OnOk result (text.new ≡ text.old ++ lines.kind_text (CheckKind.FrameTooLarge bytes)) }
{
    text.put(b"frame of ")?;
    text.put_decimal(u64::from(bytes))?;
    text.put(b" bytes")
}

/// Puts which check of a firmware fails.
pub(crate) fn put_kind(text: &mut Text, kind: &CheckKind) -> Result<(), AllocError>
    ensures { OnOk result (text.new ≡ text.old ++ lines.kind_text kind.now) }
{
    match kind {
        CheckKind::Unknown(name) => put_both(text, b"unknown ", name.as_slice()),
        CheckKind::Twice(name) => put_both(text, b"twice ", name.as_slice()),
        CheckKind::IllTyped => text.put(b"type"),
        CheckKind::NoMain => text.put(b"no main"),
        CheckKind::BadWindow => text.put(b"bad window"),
        CheckKind::WindowOverlap => text.put(b"windows overlap"),
        CheckKind::BadInit => text.put(b"bad init"),
        CheckKind::ObjectTooLarge => text.put(b"object too large"),
        CheckKind::FrameTooLarge { bytes } => put_frame(text, *bytes),
    }
}

/// Puts the place of an instruction.
fn put_instruction(text: &mut Text, func: &[u8], block: &[u8], inst: u32) -> Result<(), AllocError>
    ensures { OnOk result (text.new ≡ text.old ++ lines.place_text (CheckPlace.Inst func.now block.now inst)) }
{
    put_both(text, func, b" block ")?;
    put_both(text, block, b" instruction ")?;
    text.put_decimal(u64::from(inst))
}

/// Puts where a check of a firmware fails.
pub(crate) fn put_place(text: &mut Text, place: &CheckPlace) -> Result<(), AllocError>
    ensures { OnOk result (text.new ≡ text.old ++ lines.place_text place.now) }
{
    match place {
        CheckPlace::Struct(name) => put_both(text, b"struct ", name.as_slice()),
        CheckPlace::Periph(name) => put_both(text, b"peripheral ", name.as_slice()),
        CheckPlace::Global(name) => put_both(text, b"global ", name.as_slice()),
        CheckPlace::File(name) => put_both(text, b"file ", name.as_slice()),
        CheckPlace::Func(name) => put_both(text, b"function ", name.as_slice()),
        CheckPlace::Inst { func, block, inst } => {
            put_instruction(text, func.as_slice(), block.as_slice(), *inst)
        }
        CheckPlace::Whole => text.put(b"firmware"),
    }
}
