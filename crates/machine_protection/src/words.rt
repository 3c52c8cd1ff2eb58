//! The words of a region for a block of memory.

ghost use Rattle.std.specs.Prelude.{◌≡◌, ◌<◌, ◌≤◌, ◌%◌, ◌^◌, ◌↔◌, ℕ, Bool, IsTrue};
ghost use Rattle.machine_protection.specs.Regions as regions;
ghost use Rattle.machine_protection.specs.RegionWords as words;

use crate::power::Pow2;
use crate::region::{Access, Region};

/// What a region is for, which decides who may do what there.
#[derive(Clone, Copy)]
pub enum Rights {
    /// All of memory: privileged code writes, all code reads, none is fetched.
    Background,
    /// Code, and constants beside it: all read and fetch, none writes.
    Code,
    /// A stack: all read and write.
    Stack,
    /// Data: all read and write.
    Ram,
    /// The registers of devices: all read and write.
    Device,
}

impl Rights {
    /// MPU_RASR without SRD and SIZE (B3.5.9).
    pub fn word(self) -> u32
        ensures exact { result ≡ words.rights_word self }
        ensures small { result < 2 ^ 30 }
    {
        match self {
            Rights::Background => 0x1206_0001,
            Rights::Code => 0x0602_0001,
            Rights::Stack | Rights::Ram => 0x1306_0001,
            Rights::Device => 0x1301_0001,
        }
    }
}

/// The words of the region for the block of `size` bytes at `base`, as the region of this number; bit i of `srd` takes out
/// the i-th eighth of the block (B3.5.8 and B3.5.9). Takes no memory.
#[tactic(auto, unfolding(crate::specs::RegionWords::region_of))]
pub fn region(number: u8, base: u32, size: Pow2, srd: u8, rights: Rights) -> Region
    requires number { number < 16 }
    requires size { 32 ≤ size }
    requires base { base % size ≡ 0 }
    ensures words { result ≡ words.region_of number base size srd rights }
    ensures holds { (a : ℕ) → IsTrue (regions.holds result a) ↔ words.IsHeld base size srd a }
    ensures rights { (u : Bool) (kind : Access) → regions.allows result u kind ≡ words.may rights u kind }
{
    let size_field = size.get().trailing_zeros() - 1;
    Region {
        rbar: base + 16 + u32::from(number),
        rasr: rights.word() + u32::from(srd) * 256 + size_field * 2,
    }
}
