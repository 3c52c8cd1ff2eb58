//! A region: its two registers, the addresses that it holds, and the accesses that it allows.

ghost use Rattle.std.specs.Prelude.{◌≡◌, ◌+◌, ◌<◌};
ghost use Rattle.machine_protection.specs.Regions as regions;

/// A region as its two registers hold it (Armv7-M Architecture Reference Manual, B3.5.8 and B3.5.9).
#[derive(Clone, Copy, PartialEq, Eq, Debug)]
pub struct Region {
    /// MPU_RBAR: ADDR in bits 31 to 5, VALID in bit 4, REGION in bits 3 to 0.
    pub rbar: u32,
    /// MPU_RASR: XN in bit 28, AP in bits 26 to 24, TEX, S, C and B in bits 21 to 16, SRD in bits 15 to 8,
    /// SIZE in bits 5 to 1, ENABLE in bit 0.
    pub rasr: u32,
}

/// What an access wants of an address.
#[derive(Clone, Copy)]
pub enum Access {
    /// A load.
    Read,
    /// A store.
    Write,
    /// A fetch of an instruction's halfword.
    Fetch,
}

impl Region {
    /// The base-2 logarithm of the region's size in bytes, one more than RASR.SIZE.
    fn size_log(&self) -> u32
        ensures { result ≡ regions.size_log self.now }
    {
        (self.rasr >> 1) % 32 + 1
    }

    /// Whether the address lies in the region's block, whatever its subregions are.
    fn is_in_block(&self, addr: u32) -> bool
        ensures { result ≡ regions.is_in_block self.now addr }
    {
        let size_log = self.size_log();
        u64::from(addr) >> size_log == u64::from(self.rbar) >> size_log
    }

    /// Whether RASR.SRD takes out the subregion of the address.
    fn is_taken_out(&self, addr: u32) -> bool
        ensures { result ≡ regions.is_taken_out self.now addr }
    {
        let size_log = self.size_log();
        if size_log < 8 {
            return false;
        }
        let subregion = (addr >> (size_log - 3)) % 8;
        ((self.rasr >> 8) % 256 >> subregion) % 2 == 1
    }

    /// Whether the region holds the address: it is enabled, of 32 bytes or more, the address lies in its
    /// block, and the address's subregion is not taken out (B3.5.1).
    #[tactic(auto, unfolding(crate::specs::Regions::holds))]
    pub fn holds(&self, addr: u32) -> bool
        ensures { result ≡ regions.holds self.now addr }
    {
        self.rasr % 2 == 1
            && self.size_log() > 4
            && self.is_in_block(addr)
            && !self.is_taken_out(addr)
    }

    /// Whether the region allows such an access to an address that it decides about, by RASR.AP and RASR.XN
    /// (B3.5.9, CheckPermission).
    pub fn allows(&self, unprivileged: bool, kind: Access) -> bool
        ensures { result ≡ regions.allows self.now unprivileged kind }
    {
        let permission = (self.rasr >> 24) % 8;
        match kind {
            Access::Read => may_read(unprivileged, permission),
            Access::Write => may_write(unprivileged, permission),
            Access::Fetch => may_read(unprivileged, permission) && (self.rasr >> 28) % 2 == 0,
        }
    }
}

fn may_read(unprivileged: bool, permission: u32) -> bool
    ensures { result ≡ regions.ap_reads unprivileged permission }
{
    if unprivileged {
        matches!(permission, 2 | 3 | 6 | 7)
    } else {
        !matches!(permission, 0 | 4)
    }
}

fn may_write(unprivileged: bool, permission: u32) -> bool
    ensures { result ≡ regions.ap_writes unprivileged permission }
{
    if unprivileged {
        permission == 3
    } else {
        matches!(permission, 1 | 2 | 3)
    }
}
