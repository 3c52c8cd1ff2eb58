//! The fetch of an instruction, and the step of a machine that has not ended.

ghost use Rattle.std.specs.Prelude.{◌≡◌, ◌+◌, ◌%◌, ◌<◌, ◌^◌, true, false, IsTrue, IsFalse, IfSome, None};
ghost use Rattle.machine_protection.specs.declared.region.Access.TheVariants.{Fetch};
ghost use Rattle.machine_bus.specs.Bus.{fetch_at};
ghost use Rattle.machine_bus.specs.Locations.{location};
ghost use Rattle.machine_emulator.specs.Fetches.{IsLow};
ghost use Rattle.machine_emulator.specs.Code.{IsCodeOf, StandsIn};
ghost use Rattle.machine_emulator.specs.Parts.{state_of, left, left_by};
ghost use Rattle.machine_model.specs.State.{by_mpu};
ghost use Rattle.machine_model.specs.Step as step;

use crate::parts::Parts;
use crate::{Decoded, FlashCode, Guard};
use base_events::event::Event;
use machine_model::answers::Fetched;
use machine_model::state::StopReason;
use machine_protection::region::Access;
use machine_thumb_decoding::decode;

/// Whether the second halfword of an instruction of so many bytes, if it has one, may be fetched as the first may.
#[inline(always)]
fn permits_second(guard: &mut Guard, size: u8, address: u32) -> bool
    requires { address + 2 < 2 ^ 32 }
    ensures may { IsTrue result → size ≡ 4 → by_mpu guard.old Fetch address ≡ true
        → by_mpu guard.old Fetch (address + 2) ≡ true }
    ensures may_not { IsFalse result → (size ≡ 4) × (by_mpu guard.old Fetch (address + 2) ≡ false) }
    ensures same { guard.new ≡ guard.old }
{
    if size != 4 {
        return true;
    }
    guard.permits_behind(address)
}

impl Parts {
    /// The halfword of code at an address.
    fn fetch_half(&self, address: u32) -> Option<u16>
        requires { address % 2 ≡ 0 }
        ensures half { result ≡ fetch_at (location self.now.bus.image address)
            self.now.bus.image self.now.bus.ram }
        ensures low { IfSome result (λ half. address < 2 ^ 31) }
    {
        let _ = self.bus.image();
        self.bus.fetch(address)
    }

    /// The halfwords of the next instruction. A first one that begins with 11101, 11110 or 11111 is followed by a
    /// second (A5.1).
    #[tactic(auto, unfolding(machine_model::specs::Step::fetch))]
    fn fetch(&mut self) -> Fetched
        requires { self.old.core.pc % 2 ≡ 0 }
        ensures fetched { result ≡ step.fetch by_mpu self.old.bus.image (state_of self.old) }
        ensures low { IsLow result self.old.core.pc }
        ensures same { self.new ≡ self.old }
    {
        let pc = self.core.pc;
        if !self.protection.permits(Access::Fetch, pc) {
            return Fetched::NotAllowed;
        }
        let Some(first) = self.fetch_half(pc) else {
            return Fetched::NotMapped;
        };
        if first < 0xE800 {
            return Fetched::Took {
                first,
                second: 0,
                size: 2,
            };
        }
        if !self.protection.permits(Access::Fetch, pc + 2) {
            return Fetched::NotAllowed;
        }
        match self.fetch_half(pc + 2) {
            Some(second) => Fetched::Took {
                first,
                second,
                size: 4,
            },
            None => Fetched::NotMapped,
        }
    }

    /// The step of a machine that has not ended, with the code of its flash.
    #[inline(always)]
    pub fn turn(&mut self, code: &FlashCode) -> Option<Event>
        requires code { IsCodeOf self.old.bus.image code.now }
        requires sp { self.old.core.sp % 4 ≡ 0 }
        requires other_sp { self.old.core.other_sp % 4 ≡ 0 }
        requires pc { self.old.core.pc % 2 ≡ 0 }
        requires live { self.old.ending ≡ None }
        ensures { left self.new result ≡ left_by self.old.bus.image
            (step.turn by_mpu self.old.bus.image (state_of self.old)) }
    {
        match code.at(self.core.pc) {
            Some(decoded) => self.turn_decoded(decoded),
            None => self.turn_fetched(),
        }
    }

    /// The step at an instruction that stands in flash.
    #[inline(always)]
    #[tactic(auto, using(crate::proofs::Standing::low_there))]
    fn turn_decoded(&mut self, decoded: Decoded) -> Option<Event>
        requires there { StandsIn self.old.bus.image self.old.core.pc decoded }
        requires sp { self.old.core.sp % 4 ≡ 0 }
        requires other_sp { self.old.core.other_sp % 4 ≡ 0 }
        requires live { self.old.ending ≡ None }
        ensures { left self.new result ≡ left_by self.old.bus.image
            (step.turn by_mpu self.old.bus.image (state_of self.old)) }
    {
        let _ = self.bus.image();
        let pc = self.core.pc;
        if !self.protection.permits(Access::Fetch, pc) {
            return self.fetch_fault();
        }
        if !permits_second(&mut self.protection, decoded.size, pc) {
            return self.fetch_fault();
        }
        self.execute(decoded.instr, pc + u32::from(decoded.size))
    }

    /// The step at halfwords that are fetched.
    #[inline(never)]
    #[tactic(auto, unfolding(machine_model::specs::Step::turn))]
    fn turn_fetched(&mut self) -> Option<Event>
        requires sp { self.old.core.sp % 4 ≡ 0 }
        requires other_sp { self.old.core.other_sp % 4 ≡ 0 }
        requires pc { self.old.core.pc % 2 ≡ 0 }
        requires live { self.old.ending ≡ None }
        ensures { left self.new result ≡ left_by self.old.bus.image
            (step.turn by_mpu self.old.bus.image (state_of self.old)) }
    {
        match self.fetch() {
            Fetched::Took {
                first,
                second,
                size,
            } => match decode(first, second) {
                Some((instr, _)) => self.execute(instr, self.core.pc + u32::from(size)),
                None => self.stop(StopReason::Undefined),
            },
            Fetched::NotAllowed => self.fetch_fault(),
            Fetched::NotMapped => self.stop(StopReason::Bus),
        }
    }
}
