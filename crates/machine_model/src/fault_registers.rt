//! The registers that tell of faults: SHCSR and CFSR as sets of their bits, and what changes them.

ghost use Rattle.std.specs.Prelude.{⊤, ◌≡◌, ◌*◌, ◌/◌, ◌%◌, ◌^◌, [], ◌∷◌, codes, nat_eq, bit_or};
ghost use Rattle.base_words.specs.Arithmetic.{bit_clear};
ghost use Rattle.machine_model.specs.System as system;

use crate::state::FaultStatus;
use crate::{CCR, CFSR, MMFAR, SHCSR};
use bitflags::{Flag, Flags, bitflag_items};
use std::marker::Model;

/// The bits of SHCSR that are kept (Armv7-M Architecture Reference Manual, B3.2.13).
#[derive(Clone, Copy)]
struct HandlerBits(u32);

bitflag_items! {
    impl HandlerBits: u32 {
        const MEMFAULTENA = 0x10000;
    }
}

impl Flags for HandlerBits {
    type Bits = u32;

    ghost exact = { ⊤ };

    ghost table = { (codes "MEMFAULTENA", 0x10000) ∷ [] };

    ghost set_of = { λ b. b.0 };

    fn flags<'a>() -> &'a [Flag<HandlerBits>] {
        HandlerBits::FLAGS
    }

    fn bits(&self) -> u32 {
        self.0
    }

    fn from_bits_retain(bits: u32) -> HandlerBits {
        HandlerBits(bits)
    }
}

/// The bits of CFSR that MemManage faults set (B3.2.15).
#[derive(Clone, Copy)]
struct CauseBits(u32);

bitflag_items! {
    impl CauseBits: u32 {
        const IACCVIOL = 0x1;
        const DACCVIOL = 0x2;
        const MMARVALID = 0x80;
    }
}

impl Flags for CauseBits {
    type Bits = u32;

    ghost exact = { ⊤ };

    ghost table = { (codes "IACCVIOL", 0x1) ∷ (codes "DACCVIOL", 0x2) ∷ (codes "MMARVALID", 0x80) ∷ [] };

    ghost set_of = { λ b. b.0 };

    fn flags<'a>() -> &'a [Flag<CauseBits>] {
        CauseBits::FLAGS
    }

    fn bits(&self) -> u32 {
        self.0
    }

    fn from_bits_retain(bits: u32) -> CauseBits {
        CauseBits(bits)
    }
}

/// SHCSR, which contracts see as its word.
#[derive(Clone, Copy)]
pub struct HandlerControl {
    set: HandlerBits,
}

impl Model for HandlerControl {
    ghost use Rattle.std.specs.Prelude.{ℕ};

    ghost Value = { ℕ };

    ghost view = { λ c. c.set.0 };

    ghost inverse = { λ n. record { set = record { 0 = n } } };
}

impl HandlerControl {
    /// The register with nothing enabled.
    fn empty() -> HandlerControl
        ensures { result ≡ 0 }
    {
        HandlerControl {
            set: HandlerBits::empty(),
        }
    }

    /// The word.
    fn bits(self) -> u32
        ensures { result ≡ self }
    {
        self.set.bits()
    }

    /// What a write of the register keeps.
    fn kept(value: u32) -> HandlerControl
        ensures { result ≡ value / 2 ^ 16 % 2 * 2 ^ 16 }
    {
        HandlerControl {
            set: HandlerBits::from_bits_truncate(value),
        }
    }

    /// Whether MemManage is enabled.
    pub fn enables_faults(self) -> bool
        ensures { result ≡ nat_eq (self / 2 ^ 16 % 2) 1 }
    {
        self.set.contains(HandlerBits::MEMFAULTENA)
    }
}

/// CFSR, which contracts see as its word.
#[derive(Clone, Copy)]
pub struct FaultCauses {
    set: CauseBits,
}

impl Model for FaultCauses {
    ghost use Rattle.std.specs.Prelude.{ℕ};

    ghost Value = { ℕ };

    ghost view = { λ c. c.set.0 };

    ghost inverse = { λ n. record { set = record { 0 = n } } };
}

impl FaultCauses {
    /// The register with no cause.
    fn empty() -> FaultCauses
        ensures { result ≡ 0 }
    {
        FaultCauses {
            set: CauseBits::empty(),
        }
    }

    /// The word.
    fn bits(self) -> u32
        ensures { result ≡ self }
    {
        self.set.bits()
    }

    /// The register without the bits that are set in a word.
    #[tactic(auto, unfolding(base_words::specs::Arithmetic::bit_clear))]
    fn cleared(self, value: u32) -> FaultCauses
        ensures { result ≡ bit_clear self value }
    {
        FaultCauses {
            set: self.set.difference(CauseBits::from_bits_retain(value)),
        }
    }

    /// The register with the cause of a refused fetch as well.
    fn with_fetch(self) -> FaultCauses
        ensures { result ≡ bit_or self 0x1 }
    {
        FaultCauses {
            set: self.set.union(CauseBits::IACCVIOL),
        }
    }

    /// The register with the cause of a refused load or store as well, and with the bit that MMFAR has its address.
    fn with_access(self) -> FaultCauses
        ensures { result ≡ bit_or self 0x82 }
    {
        FaultCauses {
            set: self
                .set
                .union(CauseBits::DACCVIOL.union(CauseBits::MMARVALID)),
        }
    }
}

impl FaultStatus {
    /// The registers at reset: MemManage is disabled, and there was no fault.
    pub fn at_reset() -> FaultStatus
        ensures { result ≡ record { shcsr = 0; cfsr = 0; mmfar = 0 } }
    {
        FaultStatus {
            shcsr: HandlerControl::empty(),
            cfsr: FaultCauses::empty(),
            mmfar: 0,
        }
    }

    /// The registers after a refused fetch: IACCVIOL is set.
    pub fn after_fetch(self) -> FaultStatus
        ensures { result ≡ record self { cfsr = bit_or self.cfsr 0x1 } }
    {
        FaultStatus {
            cfsr: self.cfsr.with_fetch(),
            ..self
        }
    }

    /// The registers after a refused load or store: DACCVIOL and MMARVALID are set, and MMFAR has its address.
    pub fn after_access(self, address: u32) -> FaultStatus
        ensures { result ≡ record self { cfsr = bit_or self.cfsr 0x82; mmfar = address } }
    {
        FaultStatus {
            cfsr: self.cfsr.with_access(),
            mmfar: address,
            ..self
        }
    }

    /// A read of CCR, which gives STKALIGN alone, or of a register that tells of faults.
    #[tactic(auto, unfolding(crate::specs::System::read_status))]
    pub fn read(&self, address: u32) -> u32
        ensures { result ≡ system.read_status address self.now }
    {
        match address {
            CCR => 0x200,
            SHCSR => self.shcsr.bits(),
            CFSR => self.cfsr.bits(),
            _ => self.mmfar,
        }
    }

    /// A write: SHCSR keeps MEMFAULTENA, and a one clears its bit of CFSR.
    #[tactic(auto, unfolding(crate::specs::System::write_status))]
    pub fn write(&mut self, address: u32, value: u32)
        ensures { self.new ≡ system.write_status address value self.old }
    {
        match address {
            SHCSR => self.shcsr = HandlerControl::kept(value),
            CFSR => self.cfsr = self.cfsr.cleared(value),
            MMFAR => self.mmfar = value,
            _ => {}
        }
    }
}
