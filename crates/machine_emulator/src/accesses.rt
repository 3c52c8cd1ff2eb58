//! Single loads and stores, with their tests (Armv7-M ARM, B2.3 MemA and ValidateAddress), and the system's registers.

ghost use Rattle.std.specs.Prelude.{◌≡◌, ◌<◌, ◌%◌, ◌^◌, true};
ghost use Rattle.machine_protection.specs.Protection.{IsAccessWidth};
ghost use Rattle.machine_emulator.specs.Accesses.{IsFit, extended, load_extended, loaded_extended, stored_at};
ghost use Rattle.machine_model.specs.Instructions.{store_from};
ghost use Rattle.machine_emulator.specs.Parts.{state_of, left, left_by, does};
ghost use Rattle.machine_model.specs.Perform as perform;
ghost use Rattle.machine_model.specs.State as state;
ghost use Rattle.machine_model.specs.System as system;
ghost use Rattle.machine_model.specs.Tests as tests;

use crate::Guard;
use crate::parts::Parts;
use base_events::event::Event;
use machine_bus::answer::{Loaded, Stored};
use machine_bus::bus::{Bus, cut_to_width};
use machine_model::answers::Verdict;
use machine_model::state::{End, StopReason};
use machine_model::{CCR, CFSR, MMFAR, SHCSR};
use machine_protection::region::Access;
use machine_protection::{MPU_CTRL, MPU_RASR, MPU_RBAR, MPU_RNR, MPU_TYPE};

/// Whether an address lies in the system control space (B3.1).
#[inline(always)]
pub fn is_in_system(address: u32) -> bool
    ensures { result ≡ system.in_system address }
{
    address >= 0xE000_0000 && address < 0xE010_0000
}

/// Whether an address is one of the system's registers.
fn is_system_register(address: u32) -> bool
    ensures { result ≡ system.is_system_register address }
{
    matches!(
        address,
        MPU_TYPE | MPU_CTRL | MPU_RNR | MPU_RBAR | MPU_RASR | CCR | SHCSR | CFSR | MMFAR
    )
}

/// The tests of an access, in their order: alignment, the system control space, protection.
#[inline(always)]
#[tactic(auto, unfolding(machine_model::specs::Tests::verdict))]
pub fn test_access(guard: &mut Guard, kind: Access, width: u8, address: u32) -> Verdict
    requires { IsAccessWidth width }
    ensures verdict { result ≡ tests.verdict state.by_mpu guard.old kind width address }
    ensures fit { IsFit result width address }
    ensures same { guard.new ≡ guard.old }
{
    if address % u32::from(width) != 0 {
        Verdict::Bad(StopReason::Unaligned)
    } else if is_in_system(address) {
        if !guard.is_unprivileged() && width == 4 && is_system_register(address) {
            Verdict::ToSystem
        } else {
            Verdict::Bad(StopReason::Bus)
        }
    } else if guard.permits(kind, address) {
        Verdict::ToBus
    } else {
        Verdict::Refused
    }
}

/// A loaded value as a register holds it: zeros before it, or its sign (ZeroExtend, SignExtend).
#[inline(always)]
fn extended(signed: bool, width: u8, value: u32) -> u32
    requires { value < 256 ^ width }
    ensures { result ≡ extended signed width value }
{
    match (signed, width) {
        (true, 1) if value >= 0x80 => value.wrapping_sub(0x100),
        (true, 2) if value >= 0x8000 => value.wrapping_sub(0x1_0000),
        _ => value,
    }
}

impl Parts {
    /// A read of one of the system's registers.
    #[tactic(auto, unfolding(machine_model::specs::System::read_system))]
    pub fn read_system(&self, address: u32) -> u32
        ensures { result ≡ system.read_system address self.now.protection self.now.status }
    {
        match self.protection.mpu().read(address) {
            Some(value) => value,
            None => self.status.read(address),
        }
    }

    /// A write of one of the system's registers.
    pub fn write_system(&mut self, address: u32, value: u32)
        ensures state { state_of self.new ≡ system.write_system address value (state_of self.old) }
        ensures image { self.new.bus ≡ self.old.bus }
    {
        self.protection.write(address, value);
        self.status.write(address, value);
    }

    /// Loads into a register (B2.3, MemA), and goes on with the next instruction. The value gets zeros before it, or
    /// its sign.
    #[inline(always)]
    #[tactic(auto, unfolding(machine_model::specs::Perform::perform))]
    pub fn load(
        &mut self,
        register: u8,
        signed: bool,
        width: u8,
        address: u32,
        next: u32,
    ) -> Option<Event>
        requires width { IsAccessWidth width }
        requires aligned { self.old.core.sp % 4 ≡ 0 }
        ensures { left self.new result
            ≡ does (load_extended register signed width address next self.old.core) self.old }
    {
        match test_access(&mut self.protection, Access::Read, width, address) {
            Verdict::ToBus => self.load_from_bus(register, signed, width, address, next),
            Verdict::ToSystem => {
                let value = self.read_system(address);
                self.core
                    .take(register, extended(signed, width, value), next);
                None
            }
            Verdict::Refused => self.data_fault(address),
            Verdict::Bad(reason) => self.stop(reason),
        }
    }

    /// A load that may be made (MemU).
    #[inline(always)]
    fn load_from_bus(
        &mut self,
        register: u8,
        signed: bool,
        width: u8,
        address: u32,
        next: u32,
    ) -> Option<Event>
        requires width { IsAccessWidth width }
        requires aligned { address % width ≡ 0 }
        ensures { left self.new result ≡ left_by self.old.bus.image
            (loaded_extended self.old.bus.image register signed width address next (state_of self.old)) }
    {
        match self.bus.load(address, width) {
            Loaded::Value(value) => {
                self.core
                    .take(register, extended(signed, width, value), next);
                None
            }
            Loaded::Device {
                periph,
                offset,
                value,
            } => {
                self.core
                    .take(register, extended(signed, width, value), next);
                Some(Event {
                    compartment: self.bus.compartment(),
                    periph,
                    offset,
                    width,
                    write: false,
                    value,
                })
            }
            Loaded::NoInput => self.end(End::InputEnd),
            Loaded::Unmapped => self.stop(StopReason::Bus),
        }
    }

    /// Stores from a register (B2.3, MemA), and goes on with the next instruction.
    #[inline(always)]
    #[tactic(auto, unfolding(machine_model::specs::Perform::perform))]
    pub fn store(&mut self, register: u8, width: u8, address: u32, next: u32) -> Option<Event>
        requires width { IsAccessWidth width }
        requires aligned { self.old.core.sp % 4 ≡ 0 }
        ensures { left self.new result
            ≡ does (store_from register width address next self.old.core) self.old }
    {
        let value = self.core.low_register(register);
        match test_access(&mut self.protection, Access::Write, width, address) {
            Verdict::ToBus => self.store_to_bus(width, address, value, next),
            Verdict::ToSystem => {
                self.core.pc = next;
                self.write_system(address, value);
                None
            }
            Verdict::Refused => self.data_fault(address),
            Verdict::Bad(reason) => self.stop(reason),
        }
    }

    /// A store that may be made (MemU).
    #[inline(always)]
    fn store_to_bus(&mut self, width: u8, address: u32, value: u32, next: u32) -> Option<Event>
        requires width { IsAccessWidth width }
        requires aligned { address % width ≡ 0 }
        ensures { left self.new result ≡ left_by self.old.bus.image
            (stored_at self.old.bus.image width address value next (state_of self.old)) }
    {
        match self.bus.store(address, width, value) {
            Stored::Done => {
                self.core.pc = next;
                None
            }
            Stored::Device { periph, offset } => {
                self.core.pc = next;
                let value = cut_to_width(value, width);
                Some(Event {
                    compartment: self.bus.compartment(),
                    periph,
                    offset,
                    width,
                    write: true,
                    value,
                })
            }
            Stored::Unmapped => self.stop(StopReason::Bus),
        }
    }
}
