//! Firmwares that are checked.

ghost use Rattle.std.specs.Prelude.{◌≡◌};
ghost use Rattle.ir_model.specs.Plain.{firmware_of};
ghost use Rattle.ir_model.specs.Canonical.{IsWithinLimits};
ghost use Rattle.ir_model.specs.Typing.{IsTyped};

use crate::firmware::Firmware;
use std::marker::Model;

/// A firmware that is typed and within the limits of a text, seen as the firmware.
pub struct Checked {
    firmware: Firmware,
}

impl Drop for Checked {
    fn drop(self) {
        let Checked { firmware: _ } = self;
    }
}

impl Model for Checked {
    ghost use Rattle.std.specs.Coded.{codes};
    ghost use Rattle.ir_model.specs.declared.firmware.Firmware.{Firmware as Parts};
    ghost use Rattle.ir_model.specs.contracts.types.Ty as types;
    ghost use Rattle.ir_model.specs.Plain.{firmware_of};
    ghost use Rattle.ir_model.specs.Canonical.{IsWithinLimits};
    ghost use Rattle.ir_model.specs.Typing.{IsTyped};

    ghost Value = { Parts };

    ghost coded = { Prim.hlevel (codes, types.the_row.coded) };

    ghost view = { λ c. c.firmware };

    ghost invariant = { λ c. IsWithinLimits (firmware_of c.firmware) × IsTyped (firmware_of c.firmware) };
}

impl Checked {
    /// The firmware as one that is checked. Takes no memory.
    pub fn new(firmware: Firmware) -> Checked
        requires within { IsWithinLimits (firmware_of firmware) }
        requires typed { IsTyped (firmware_of firmware) }
        ensures { result ≡ firmware }
    {
        Checked { firmware }
    }

    /// The firmware, with what is known of it.
    pub fn firmware(&self) -> &Firmware
        ensures same { result.now ≡ self.now }
        ensures within { IsWithinLimits (firmware_of self.now) }
        ensures typed { IsTyped (firmware_of self.now) }
    {
        &self.firmware
    }
}
