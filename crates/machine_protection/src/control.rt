//! MPU_CTRL as a set of its bits.

ghost use Rattle.std.specs.Prelude.{⊤, ◌≡◌, ◌/◌, ◌%◌, [], ◌∷◌, codes, nat_eq};
ghost use Rattle.machine_protection.specs.Registers.{kept_control};

use bitflags::{Flag, Flags, bitflag_items};

/// What MPU_CTRL keeps (Armv7-M Architecture Reference Manual, B3.5.6).
#[derive(Clone, Copy)]
pub(crate) struct Control(pub(crate) u32);

bitflag_items! {
    impl Control: u32 {
        const ENABLE = 1;
        const HFNMIENA = 2;
        const PRIVDEFENA = 4;
    }
}

impl Flags for Control {
    type Bits = u32;

    ghost exact = { ⊤ };

    ghost table = { (codes "ENABLE", 1) ∷ (codes "HFNMIENA", 2) ∷ (codes "PRIVDEFENA", 4) ∷ [] };

    ghost set_of = { λ c. c.0 };

    fn flags<'a>() -> &'a [Flag<Control>] {
        Control::FLAGS
    }

    fn bits(&self) -> u32 {
        self.0
    }

    fn from_bits_retain(bits: u32) -> Control {
        Control(bits)
    }
}

/// What a write of the register keeps.
pub(crate) fn control_of(value: u32) -> Control
    ensures { result.0 ≡ kept_control value }
{
    Control::from_bits_truncate(value)
}

/// Whether the unit is on.
pub(crate) fn is_on(control: Control) -> bool
    ensures { result ≡ nat_eq (control.0 % 2) 1 }
{
    control.contains(Control::ENABLE)
}

/// Whether privileged accesses that no region decides about are allowed.
pub(crate) fn has_background(control: Control) -> bool
    ensures { result ≡ nat_eq (control.0 / 4 % 2) 1 }
{
    control.contains(Control::PRIVDEFENA)
}
