//! The generated firmwares are typed and within the limits of a text.

ghost use Rattle.std.specs.Prelude.{◌≡◌, ◌≤◌, IfOk};
ghost use Rattle.ir_model.specs.Plain.{firmware_of};
ghost use Rattle.ir_generator.specs.Made.{made};

use crate::make::make;
use ir_model::checked::Checked;
use std::alloc::{AllocError, Global};

/// The firmware of a seed and a size, as one that is checked: no check of it fails.
#[tactic(auto, using(crate::proofs::Typed::made_is_typed))]
pub fn checked_firmware(alloc: Global, seed: u32, size: u32) -> Result<Checked, AllocError>
    requires least { 1 ≤ size }
    requires most { size ≤ 200 }
    ensures { IfOk result (λ checked. firmware_of checked ≡ made seed size) }
{
    let firmware = make(alloc, seed, size)?;
    Ok(Checked::new(firmware))
}
