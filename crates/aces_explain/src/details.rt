//! The lines of the first fault of a text.

ghost use Rattle.std.specs.Prelude.{◌≡◌, ◌≤◌, Some, None, length, IfOk};
ghost use Rattle.ir_model.specs.Plain.{firmware_of as plain};
ghost use Rattle.ir_model.specs.TextLimits.{text_limit};
ghost use Rattle.ir_model.specs.Texts.{IsText, SyntaxAt};
ghost use Rattle.ir_model.specs.Typing.{fault_of};
ghost use Rattle.ir_check_scopes.specs.Found.{IsFaultOf};
ghost use Rattle.ir_reader.specs.First.{IsFirst};
ghost use Rattle.aces_files.specs.Outcomes.{done};
ghost use Rattle.aces_explain.specs.Answers.{ExplainAnswer};

use crate::explanations::{check_told, passed_told, syntax_told, utf8_told};
use ir_check::CheckFault;
use ir_check_details::check_lines;
use ir_expected_tokens::syntax_lines;
use ir_model::check::{CheckKind, CheckPlace};
use ir_model::firmware::Firmware;
use ir_model::token::{Excess, Pos};
use ir_reader::TextFault;
use ir_text_places::item_place;
use std::alloc::{AllocError, Global};

/// The lines of a syntax fault.
fn syntax_fault(alloc: Global, name: &str, bytes: &[u8], pos: Pos) -> Result<Vec<u8>, AllocError>
    requires { SyntaxAt bytes.now pos }
    ensures { IfOk result (λ v. ExplainAnswer name.now bytes.now (done 1 v.items None)) }
{
    let details = syntax_lines(alloc, bytes)?;
    syntax_told(alloc, name.as_bytes(), bytes, pos, details.as_slice())
}

/// The lines of a fault of a text, which is its first.
///
/// # Errors
///
/// There is no memory for them, or there was none to read the text.
pub(crate) fn text_fault(
    alloc: Global,
    name: &str,
    bytes: &[u8],
    fault: TextFault,
) -> Result<Vec<u8>, AllocError>
    requires { IsFirst bytes.now fault }
    ensures { IfOk result (λ v. ExplainAnswer name.now bytes.now (done 1 v.items None)) }
{
    match fault {
        TextFault::NoMemory => Err(AllocError),
        TextFault::Utf8 { at } => utf8_told(alloc, name.as_bytes(), at),
        TextFault::Syntax { pos } => syntax_fault(alloc, name, bytes, pos),
        TextFault::NumberTooWide { pos } => {
            passed_told(alloc, name.as_bytes(), bytes, Excess::TooWide, pos)
        }
        TextFault::Limit { which, pos } => {
            passed_told(alloc, name.as_bytes(), bytes, Excess::Passes(which), pos)
        }
    }
}

/// The lines of a check that fails, which is the first.
fn failing(
    alloc: Global,
    name: &str,
    bytes: &[u8],
    firmware: &Firmware,
    kind: &CheckKind,
    place: &CheckPlace,
) -> Result<Vec<u8>, AllocError>
    requires is_text { IsText (plain firmware.now) bytes.now }
    requires few { length bytes.now ≤ text_limit }
    requires first { fault_of (plain firmware.now) ≡ Some (record { kind = kind.now; place = place.now }) }
    ensures { IfOk result (λ v. ExplainAnswer name.now bytes.now (done 1 v.items None)) }
{
    let pos = item_place(bytes, firmware, kind, place)?;
    let details = check_lines(alloc, firmware, kind, place)?;
    check_told(
        alloc,
        name.as_bytes(),
        bytes,
        kind,
        place,
        pos,
        details.as_slice(),
    )
}

/// The lines of a fault of a firmware, which is its first.
///
/// # Errors
///
/// There is no memory for them, or there was none for the checks.
pub(crate) fn check_fault(
    alloc: Global,
    name: &str,
    bytes: &[u8],
    firmware: &Firmware,
    fault: &CheckFault,
) -> Result<Vec<u8>, AllocError>
    requires is_text { IsText (plain firmware.now) bytes.now }
    requires few { length bytes.now ≤ text_limit }
    requires first { IsFaultOf (plain firmware.now) fault.now }
    ensures { IfOk result (λ v. ExplainAnswer name.now bytes.now (done 1 v.items None)) }
{
    match fault {
        CheckFault::NoMemory => Err(AllocError),
        CheckFault::At { kind, place } => failing(alloc, name, bytes, firmware, kind, place),
    }
}
