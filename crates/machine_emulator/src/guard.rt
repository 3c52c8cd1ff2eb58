//! What decides which accesses are allowed, with blocks of 32 bytes that it was asked for before.

ghost use Rattle.std.specs.Prelude.{◌≡◌, ◌<◌, ◌+◌, ◌^◌, true, false, IsTrue, IsFalse};
ghost use Rattle.machine_protection.specs.declared.region.Access.TheVariants.{Fetch};
ghost use Rattle.machine_protection.specs.Protection as protection;
ghost use Rattle.machine_emulator.specs.Known.{IsPermitted};
ghost use Rattle.machine_protection.specs.Registers.{read_register, write_register};
ghost use Rattle.machine_model.specs.State as state;

use crate::blocks::Blocks;
use machine_model::state::ProtectionState;
use machine_protection::MPU_CTRL;
use machine_protection::region::Access;
use machine_protection::unit::{Mpu, default_allows};
use std::marker::Model;

/// Whether a unit is on.
#[tactic(auto, unfolding(machine_protection::specs::Registers::read_register))]
fn is_on(mpu: &Mpu) -> bool
    ensures { result ≡ protection.is_on mpu.now }
{
    match mpu.read(MPU_CTRL) {
        Some(control) => control % 2 == 1,
        None => false,
    }
}

/// What decides which accesses are allowed, which contracts see as that alone. While the unit is on, it keeps which blocks of
/// 32 bytes were permitted, until one of the unit's registers is written. Takes no memory.
#[derive(Drop)]
pub struct Guard {
    protection: ProtectionState,
    is_unit_on: bool,
    is_without_privilege: bool,
    privileged_reads: Blocks,
    privileged_writes: Blocks,
    privileged_fetches: Blocks,
    unprivileged_reads: Blocks,
    unprivileged_writes: Blocks,
    unprivileged_fetches: Blocks,
}

impl Model for Guard {
    ghost use Rattle.std.specs.Prelude.{◌≡◌, true, false};
    ghost use Rattle.machine_model.specs.declared.state.ProtectionState.{ProtectionState};
    ghost use Rattle.machine_protection.specs.declared.region.Access.TheVariants.{Read, Write, Fetch};
    ghost use Rattle.machine_protection.specs.Protection.{is_on};
    ghost use Rattle.machine_model.specs.State.{is_unprivileged};
    ghost use Rattle.machine_emulator.specs.Known.{AreKnown};

    ghost Value = { ProtectionState };

    ghost view = { λ g. g.protection };

    ghost invariant = { λ g. (g.is_unit_on ≡ is_on g.protection.mpu)
        × (g.is_without_privilege ≡ is_unprivileged g.protection)
        × AreKnown g.protection.mpu false Read g.privileged_reads.numbers
        × AreKnown g.protection.mpu false Write g.privileged_writes.numbers
        × AreKnown g.protection.mpu false Fetch g.privileged_fetches.numbers
        × AreKnown g.protection.mpu true Read g.unprivileged_reads.numbers
        × AreKnown g.protection.mpu true Write g.unprivileged_writes.numbers
        × AreKnown g.protection.mpu true Fetch g.unprivileged_fetches.numbers };
}

impl Guard {
    /// A guard that knows nothing yet.
    #[tactic(auto, using(crate::proofs::Kept::kept_rules))]
    pub fn new(protection: ProtectionState) -> Guard
        ensures { result ≡ protection }
    {
        let is_unit_on = is_on(&protection.mpu);
        let is_without_privilege = protection.is_unprivileged();
        Guard {
            protection,
            is_unit_on,
            is_without_privilege,
            privileged_reads: Blocks::none(),
            privileged_writes: Blocks::none(),
            privileged_fetches: Blocks::none(),
            unprivileged_reads: Blocks::none(),
            unprivileged_writes: Blocks::none(),
            unprivileged_fetches: Blocks::none(),
        }
    }

    /// Whether instructions are unprivileged.
    #[inline(always)]
    pub fn is_unprivileged(&self) -> bool
        ensures { result ≡ state.is_unprivileged self.now }
    {
        self.is_without_privilege
    }

    /// Whether the machine is in Handler mode.
    #[inline(always)]
    pub fn is_handler(&self) -> bool
        ensures { result ≡ self.now.handler }
    {
        self.protection.handler
    }

    /// CONTROL.nPRIV.
    pub fn is_thread_unprivileged(&self) -> bool
        ensures { result ≡ self.now.unprivileged }
    {
        self.protection.unprivileged
    }

    /// Goes into Handler mode or out of it.
    pub fn set_handler(&mut self, handler: bool)
        ensures { self.new ≡ record self.old { handler = handler } }
    {
        self.protection.handler = handler;
        self.is_without_privilege = self.protection.is_unprivileged();
    }

    /// Writes CONTROL.nPRIV.
    pub fn set_unprivileged(&mut self, unprivileged: bool)
        ensures { self.new ≡ record self.old { unprivileged = unprivileged } }
    {
        self.protection.unprivileged = unprivileged;
        self.is_without_privilege = self.protection.is_unprivileged();
    }

    /// The protection unit.
    pub fn mpu(&self) -> &Mpu
        ensures { result.now ≡ self.now.mpu }
    {
        &self.protection.mpu
    }

    /// Writes one of the unit's registers; nothing happens at another address. All that was known is forgotten where the
    /// unit is on afterwards. While it is off nothing is looked up.
    #[tactic(auto, using(crate::proofs::Kept::kept_rules))]
    pub fn write(&mut self, register: u32, value: u32)
        ensures { self.new ≡ record self.old { mpu = write_register register value self.old.mpu } }
    {
        let _ = self.protection.mpu.write(register, value);
        self.is_unit_on = is_on(&self.protection.mpu);
        if !self.is_unit_on {
            return;
        }
        self.privileged_reads = Blocks::none();
        self.privileged_writes = Blocks::none();
        self.privileged_fetches = Blocks::none();
        self.unprivileged_reads = Blocks::none();
        self.unprivileged_writes = Blocks::none();
        self.unprivileged_fetches = Blocks::none();
    }

    /// Whether such an access of the byte at an address is permitted.
    #[inline(always)]
    #[tactic(auto, using(crate::proofs::Kept::answer_rules))]
    pub fn permits(&mut self, kind: Access, address: u32) -> bool
        ensures answer { result ≡ state.by_mpu self.old kind address }
        ensures same { self.new ≡ self.old }
    {
        if !self.is_unit_on {
            return default_allows(kind, address);
        }
        if self.is_known(kind, address / 32) {
            return true;
        }
        self.ask(kind, address)
    }

    /// Whether the halfword behind one that may be fetched may be fetched too. Most often it lies in the same block.
    #[inline(always)]
    #[tactic(auto, using(crate::proofs::Kept::behind_rules))]
    pub fn permits_behind(&mut self, address: u32) -> bool
        requires { address + 2 < 2 ^ 32 }
        ensures yes { IsTrue result → state.by_mpu self.old Fetch address ≡ true
            → state.by_mpu self.old Fetch (address + 2) ≡ true }
        ensures no { IsFalse result → state.by_mpu self.old Fetch (address + 2) ≡ false }
        ensures same { self.new ≡ self.old }
    {
        if address % 32 < 30 {
            return true;
        }
        self.permits(Access::Fetch, address + 2)
    }

    /// Whether such an access is known to be permitted in the block of this number.
    #[inline(always)]
    #[tactic(auto, using(crate::proofs::Kept::known_rules))]
    fn is_known(&self, kind: Access, block: u32) -> bool
        ensures { IsTrue result → IsPermitted self.now.mpu (state.is_unprivileged self.now) kind block }
    {
        match (self.is_without_privilege, kind) {
            (false, Access::Read) => self.privileged_reads.has(block),
            (false, Access::Write) => self.privileged_writes.has(block),
            (false, Access::Fetch) => self.privileged_fetches.has(block),
            (true, Access::Read) => self.unprivileged_reads.has(block),
            (true, Access::Write) => self.unprivileged_writes.has(block),
            (true, Access::Fetch) => self.unprivileged_fetches.has(block),
        }
    }

    /// Asks the unit, and keeps what it permits.
    #[inline(never)]
    #[tactic(auto, using(crate::proofs::Kept::answer_rules))]
    fn ask(&mut self, kind: Access, address: u32) -> bool
        ensures answer { result ≡ state.by_mpu self.old kind address }
        ensures same { self.new ≡ self.old }
    {
        let is_permitted = self.protection.permits(kind, address);
        if is_permitted {
            self.keep(kind, address / 32);
        }
        is_permitted
    }

    /// Keeps a block where such an access is permitted.
    #[tactic(auto, using(crate::proofs::Kept::kept_rules))]
    fn keep(&mut self, kind: Access, block: u32)
        requires { IsPermitted self.old.mpu (state.is_unprivileged self.old) kind block }
        ensures { self.new ≡ self.old }
    {
        match (self.is_without_privilege, kind) {
            (false, Access::Read) => self.privileged_reads.put(block),
            (false, Access::Write) => self.privileged_writes.put(block),
            (false, Access::Fetch) => self.privileged_fetches.put(block),
            (true, Access::Read) => self.unprivileged_reads.put(block),
            (true, Access::Write) => self.unprivileged_writes.put(block),
            (true, Access::Fetch) => self.unprivileged_fetches.put(block),
        }
    }
}
