//! The unit as software sees it: its registers, and the test of an access.

ghost use Rattle.std.specs.Prelude.{◌≡◌, ◌+◌, ◌<◌, ◌≤◌, ◌%◌, ◌/◌, ◌*◌, ◌^◌, ◌↔◌, ℕ, not, IsTrue, Some, None, take, length, nat_eq, if◌then◌else◌};
ghost use Rattle.machine_protection.specs.Protection as protection;
ghost use Rattle.machine_protection.specs.Registers as registers;

use crate::control::{self, Control};
use crate::region::{Access, Region};
use crate::{MPU_CTRL, MPU_RASR, MPU_RBAR, MPU_RNR, MPU_TYPE};
use bitflags::Flags;
use std::marker::Model;

/// The number of regions of the largest unit.
const MOST_REGIONS: usize = 16;

/// A memory protection unit with 8 or 16 regions.
#[derive(Drop)]
pub struct Mpu {
    control: Control,
    number: u32,
    count: usize,
    regions: [Region; MOST_REGIONS],
}

impl Model for Mpu {
    ghost use Rattle.std.specs.Prelude.{◌≡◌, ◌≤◌, take, length};
    ghost use Rattle.machine_protection.specs.Registers.{Registers};

    ghost Value = { Registers };

    ghost view = { λ m. record { control = m.control.0; number = m.number; regions = take m.count m.regions } };

    ghost invariant = { λ m. (m.count ≤ 16) × (length m.regions ≡ 16) };
}

/// The bits of a word from bit `low` on, `width` of them, at their place.
fn field(word: u32, low: u32, width: u32) -> u32
    requires { low + width < 32 }
    ensures { result ≡ registers.field word low width }
{
    (word >> low) % (1 << width) << low
}

/// What MPU_RBAR keeps of a word: the base address (B3.5.8).
fn kept_address(word: u32) -> u32
    ensures { result ≡ registers.kept_address word }
{
    word >> 5 << 5
}

/// What MPU_RASR keeps of a word: XN, AP, TEX with S, C and B, SRD, and SIZE with ENABLE (B3.5.9).
fn kept_attributes(word: u32) -> u32
    ensures { result ≡ registers.kept_attributes word }
{
    field(word, 28, 1)
        + field(word, 24, 3)
        + field(word, 16, 6)
        + field(word, 8, 8)
        + field(word, 0, 6)
}

/// The region that decides about an address: the highest-numbered that holds it (B3.5.1).
#[tactic(auto, using(crate::proofs::Scan::deciding_empty, crate::proofs::Scan::deciding_more))]
fn deciding(regions: &[Region], addr: u32) -> Option<Region>
    ensures { result ≡ protection.deciding regions.now addr }
{
    let mut found = None;
    for region in regions {
        if region.holds(addr) {
            found = Some(*region);
        }
    }
    found
}

/// Whether such an access of an address is allowed where no region decides, and while a unit is off (B3.1).
#[inline(always)]
pub fn default_allows(kind: Access, addr: u32) -> bool
    ensures { result ≡ protection.default_allows kind addr }
{
    match kind {
        Access::Read | Access::Write => true,
        Access::Fetch => matches!(addr, 0..0x4000_0000 | 0x6000_0000..0xA000_0000),
    }
}

impl Mpu {
    /// A unit with 8 regions, switched off. Takes no memory.
    pub fn new() -> Self
        ensures { result ≡ registers.at_reset 8 }
    {
        Mpu {
            control: control::control_of(0),
            number: 0,
            count: 8,
            regions: [Region { rbar: 0, rasr: 0 }; MOST_REGIONS],
        }
    }

    /// A unit with 16 regions, switched off. Takes no memory.
    pub fn sixteen() -> Self
        ensures { result ≡ registers.at_reset 16 }
    {
        Mpu {
            control: control::control_of(0),
            number: 0,
            count: 16,
            regions: [Region { rbar: 0, rasr: 0 }; MOST_REGIONS],
        }
    }

    /// A read of a register: None exactly where `reg` is the address of none (B3.5.5 to B3.5.9).
    #[tactic(auto, unfolding(crate::specs::Registers::read_register))]
    pub fn read(&self, reg: u32) -> Option<u32>
        ensures { result
            ≡ (if registers.is_register reg then Some (registers.read_register reg self.now) else None) }
    {
        match reg {
            MPU_TYPE => Some((self.count as u32) << 8),
            MPU_CTRL => Some(self.control.bits()),
            MPU_RNR => Some(self.number),
            MPU_RBAR => Some(self.address()),
            MPU_RASR => Some(self.attributes()),
            _ => None,
        }
    }

    fn address(&self) -> u32
        ensures { result ≡ registers.read_address self.now }
    {
        let number = self.number as usize;
        if number < self.count {
            kept_address(self.regions[number].rbar) + self.number % 16
        } else {
            0
        }
    }

    fn attributes(&self) -> u32
        ensures { result ≡ (registers.selected self.now).rasr }
    {
        let number = self.number as usize;
        if number < self.count {
            self.regions[number].rasr
        } else {
            0
        }
    }

    /// A write of a register: false, and nothing changes, exactly where `reg` is the address of none.
    #[tactic(auto, unfolding(crate::specs::Registers::write_register))]
    pub fn write(&mut self, reg: u32, value: u32) -> bool
        ensures known { result ≡ registers.is_register reg }
        ensures after { self.new ≡ registers.write_register reg value self.old }
    {
        match reg {
            MPU_TYPE => {}
            MPU_CTRL => self.control = control::control_of(value),
            MPU_RNR => self.number = value % 256,
            MPU_RBAR => self.write_address(value),
            MPU_RASR => self.set_attributes(value),
            _ => return false,
        }
        true
    }

    fn write_address(&mut self, value: u32)
        ensures { self.new ≡ registers.write_address (nat_eq (value / 2 ^ 4 % 2) 1) self.old value }
    {
        if (value >> 4) % 2 == 1 {
            self.number = value % 16;
        }
        self.set_address(value);
    }

    fn set_address(&mut self, value: u32)
        ensures { self.new ≡ registers.with_address self.old value }
    {
        let number = self.number as usize;
        if number < self.count {
            self.regions[number].rbar = kept_address(value);
        }
    }

    fn set_attributes(&mut self, value: u32)
        ensures { self.new ≡ registers.with_attributes self.old value }
    {
        let number = self.number as usize;
        if number < self.count {
            self.regions[number].rasr = kept_attributes(value);
        }
    }

    #[tactic(auto, unfolding(crate::specs::Protection::permits))]
    fn permits(&self, unprivileged: bool, kind: Access, addr: u32) -> bool
        ensures { result ≡ protection.permits self.now unprivileged kind addr }
    {
        if !control::is_on(self.control) {
            return default_allows(kind, addr);
        }
        match deciding(&self.regions[..self.count], addr) {
            Some(region) => region.allows(unprivileged, kind),
            None => !unprivileged
                && control::has_background(self.control)
                && default_allows(kind, addr),
        }
    }

    /// Whether an access of `width` bytes from `addr` on is allowed (B3.5.1 to B3.5.4, ValidateAddress). The
    /// bytes of an aligned access are decided alike.
    pub fn allows(&self, addr: u32, width: u8, kind: Access, privileged: bool) -> bool
        requires width { protection.IsAccessWidth width }
        requires aligned { addr % width ≡ 0 }
        ensures test { result ≡ protection.permits self.now (not privileged) kind addr }
        ensures allowed { IsTrue result ↔ protection.Allowed self.now (not privileged) kind addr }
        ensures bytes { IsTrue result
            ↔ ((i : ℕ) → i < width → protection.Allowed self.now (not privileged) kind (addr + i)) }
    {
        self.permits(!privileged, kind, addr)
    }
}
