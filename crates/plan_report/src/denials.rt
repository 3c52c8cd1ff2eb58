//! The text on a range of addresses that a firmware asks for and its board denies.

ghost use Rattle.std.specs.Prelude.{◌≡◌, ◌++◌, OnOk, IfOk};
ghost use Rattle.ir_model.specs.Plain.{firmware_of};
ghost use Rattle.plan_report.specs.Lines as lines;

use crate::naming::periph_name;
use crate::text::Text;
use ir_model::firmware::Firmware;
use plan_denials::{Asked, Meeting};
use plan_model::plan::Board;
use std::alloc::{AllocError, Global};

/// Puts the name of a denied range.
fn put_denied(text: &mut Text, board: &Board, denied: usize) -> Result<(), AllocError>
    ensures { OnOk result (text.new ≡ text.old ++ lines.denied_name board.now denied) }
{
    match board.denied.as_slice().get(denied) {
        Some(found) => text.put(found.name.as_slice()),
        None => Ok(()),
    }
}

/// Puts what is asked for.
fn put_asked(text: &mut Text, firmware: &Firmware, asked: Asked) -> Result<(), AllocError>
    ensures { OnOk result (text.new ≡ text.old ++ lines.asked_text (firmware_of firmware.now) asked) }
{
    match asked {
        Asked::Window(periph) => {
            text.put(b"peripheral ")?;
            text.put(periph_name(firmware, periph))?;
            text.put(b":")
        }
        Asked::Range { compartment, cover } => {
            text.put(b"compartment ")?;
            text.put_decimal(u64::from(compartment))?;
            text.put(b": range")?;
            text.put_range(cover.base, u64::from(cover.size))
        }
    }
}

/// The text on the first range that a firmware asks for and its board denies.
///
/// # Errors
///
/// There is no memory for it.
pub fn meeting_text(
    alloc: Global,
    firmware: &Firmware,
    board: &Board,
    meeting: Meeting,
) -> Result<Vec<u8>, AllocError>
    ensures { IfOk result (λ text. text.items ≡ lines.meeting_text (firmware_of firmware.now) board.now meeting) }
{
    let mut text = Text::new(alloc);
    put_asked(&mut text, firmware, meeting.asked)?;
    text.put(b" meets ")?;
    put_denied(&mut text, board, meeting.denied)?;
    Ok(text.into_bytes())
}
