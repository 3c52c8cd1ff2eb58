//! Firmwares from texts.

ghost use Rattle.std.specs.Prelude.{◌≡◌, [], ◌∷◌, IfOk};
ghost use Rattle.ir_model.specs.Plain.{firmware_of, PlainFirmware};
ghost use Rattle.ir_reader.specs.Machine as Expected;
ghost use Rattle.ir_reader.specs.Parts.{AllHaveBlocks};
ghost use Rattle.ir_reader.specs.Reading.{Reads, HasFields};
ghost use Rattle.ir_reader.specs.Scan.{placed};
ghost use Rattle.ir_grammar.specs.Spelling as grammar;
ghost use Rattle.ir_reader.specs.Spelling.{as_found};
ghost use Rattle.std.specs.Prelude.{◌≤◌, length, OnOk, IfErr, IsUtf8};
ghost use Rattle.ir_model.specs.TextLimits.{text_limit};
ghost use Rattle.ir_model.specs.Texts.{IsText};
ghost use Rattle.ir_reader.specs.First.{IsFirst, IsAccepted};
ghost use Rattle.ir_reader.specs.Refusals.{IsPlacedFault, IsNotUtf8, Refuses};

use crate::declarations::{globals, periphs, structs};
use crate::error::{Fault, FaultKind, ReadError};
use crate::fault::TextFault;
use crate::functions::files;
use crate::position::position;
use base_lists::ListVec;
use ir_model::firmware::Firmware;
use ir_model::token::Excess;
use std::alloc::Global;

/// The firmware of a text, or its first fault by the bytes that are left there.
fn firmware(alloc: Global, text: &[u8]) -> Result<Firmware, ReadError>
    ensures fields { IfOk result (λ w. HasFields (firmware_of w).structs) }
    ensures blocks { IfOk result (λ w. AllHaveBlocks (firmware_of w).files) }
    ensures read { Reads (λ w. firmware_of w) (grammar.spell_firmware as_found) (Expected.Structs 0 ∷ []) [] (placed text.now) (λ w. []) result }
{
    let (structs, rest) = structs(alloc, text)?;
    let (periphs, rest) = periphs(alloc, rest)?;
    let (globals, rest) = globals(alloc, rest)?;
    let files = files(alloc, rest)?;
    Ok(Firmware {
        structs: ListVec::new(structs),
        periphs: ListVec::new(periphs),
        globals: ListVec::new(globals),
        files: ListVec::new(files),
    })
}

/// A fault at its place.
fn placed_fault(text: &[u8], fault: Fault) -> TextFault
    requires within { fault.left ≤ length text.now }
    requires short { length text.now ≤ text_limit }
    ensures { IsPlacedFault text.now fault result }
{
    let pos = position(text, text.len() - fault.left);
    match fault.kind {
        FaultKind::Syntax => TextFault::Syntax { pos },
        FaultKind::Exceeds(Excess::TooWide) => TextFault::NumberTooWide { pos },
        FaultKind::Exceeds(Excess::Passes(which)) => TextFault::Limit { which, pos },
    }
}

/// The bytes as UTF-8, or the first that are not.
fn utf8(text: &[u8]) -> Result<(), TextFault>
    requires { length text.now ≤ text_limit }
    ensures ok { OnOk result (IsUtf8 text.now) }
    ensures err { IfErr result (IsNotUtf8 text.now) }
{
    match str::from_utf8(text) {
        Ok(_) => Ok(()),
        Err(error) => Err(TextFault::Utf8 {
            at: error.valid_up_to() as u32,
        }),
    }
}

/// The firmware of a text in UTF-8, or a fault.
fn read_utf8(alloc: Global, text: &[u8]) -> Result<Firmware, TextFault>
    requires short { length text.now ≤ text_limit }
    requires utf8 { IsUtf8 text.now }
    ensures found { IfOk result (λ w. IsText (firmware_of w) text.now) }
    ensures refused { IfErr result (Refuses text.now) }
{
    match firmware(alloc, text) {
        Ok(firmware) => Ok(firmware),
        Err(ReadError::Memory) => Err(TextFault::NoMemory),
        Err(ReadError::Fault(fault)) => Err(placed_fault(text, fault)),
    }
}

/// The firmware of a text, or the first fault of the text.
#[tactic(auto, using(crate::proofs::Texts::accepted, crate::proofs::Texts::read_same))]
pub fn read(alloc: Global, text: &[u8]) -> Result<Firmware, TextFault>
    requires { length text.now ≤ text_limit }
    // What is read is what the text says.
    ensures found { IfOk result (λ w. IsText (firmware_of w) text.now) }
    // A text is read, unless memory runs out.
    ensures only { (w : PlainFirmware) → IsText w text.now → IsAccepted result }
    // And it is read as that firmware.
    ensures same { (w : PlainFirmware) → IsText w text.now → IfOk result (λ x. firmware_of x ≡ w) }
    // Else the first fault of the bytes is named: firmwares go on up to it, and none goes on there within the limits.
    ensures first { IfErr result (IsFirst text.now) }
{
    utf8(text)?;
    read_utf8(alloc, text)
}
