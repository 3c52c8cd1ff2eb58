//! Where the item of a fault stands in the text.

ghost use Rattle.std.specs.Prelude.{◌≡◌, ◌≤◌, length, IfOk};
ghost use Rattle.ir_model.specs.Plain.{firmware_of};
ghost use Rattle.ir_model.specs.TextLimits.{text_limit};
ghost use Rattle.ir_model.specs.Texts.{IsText};
ghost use Rattle.ir_text_places.specs.Items.{tokens_before};
ghost use Rattle.ir_text_places.specs.Faulty.{item_at, item_of};
ghost use Rattle.ir_text_places.specs.Stands.{Stands};

use crate::before::tokens_before;
use crate::naming::{all_funcs, item};
use crate::tokens::token_place;
use ir_model::check::{CheckKind, CheckPlace};
use ir_model::firmware::Firmware;
use ir_model::token::Pos;
use std::alloc::AllocError;

// How many tokens stand before the item of a fault.
fn tokens_to(firmware: &Firmware, kind: &CheckKind, place: &CheckPlace) -> Result<u64, AllocError>
    ensures { IfOk result (λ k. k ≡ tokens_before (firmware_of firmware.now) (item_at (firmware_of firmware.now) kind.now place.now)) }
{
    let alloc = firmware.files.allocator();
    let bodies = all_funcs(alloc, firmware.files.as_slice())?;
    let named = item(alloc, firmware, bodies.as_slice(), kind, place)?;
    tokens_before(firmware, bodies.as_slice(), named)
}

/// Where the item that a fault of a firmware names stands in a text of the firmware.
///
/// # Errors
///
/// There is no memory for the names of the firmware.
pub fn item_place(
    text: &[u8],
    firmware: &Firmware,
    kind: &CheckKind,
    place: &CheckPlace,
) -> Result<Pos, AllocError>
    requires text { IsText (firmware_of firmware.now) text.now }
    requires short { length text.now ≤ text_limit }
    ensures { IfOk result (λ p. Stands (firmware_of firmware.now) text.now
        (tokens_before (firmware_of firmware.now) (item_of (firmware_of firmware.now) (record { kind = kind.now; place = place.now }))) p) }
{
    let before = tokens_to(firmware, kind, place)?;
    Ok(token_place(text, before))
}
