//! MRS and MSR (Armv7-M ARM, B5.2.2 and B5.2.3). Special registers by their numbers: 8 MSP, 9 PSP, 20 CONTROL.

ghost use Rattle.std.specs.Prelude.{◌≡◌};
ghost use Rattle.machine_model.specs.Act.{GetsSpecial, SetsSpecial};
ghost use Rattle.machine_emulator.specs.Parts.{state_of, left, does};
ghost use Rattle.machine_model.specs.State as state;
ghost use Rattle.machine_model.specs.System as system;

use crate::parts::Parts;
use base_events::event::Event;
use machine_model::state::CoreRegisters;

/// The number of CONTROL (B5.1.1).
const CONTROL: u8 = 20;

/// Whether a special register is the stack pointer in use.
fn is_in_use(special: u8, core: &CoreRegisters) -> bool
    ensures { result ≡ system.is_in_use special core.now }
{
    special == if core.on_psp { 9 } else { 8 }
}

/// Takes a stack pointer into use.
fn select_stack(core: &mut CoreRegisters, psp: bool)
    ensures { core.new ≡ system.with_stack psp core.old }
{
    if core.on_psp != psp {
        let sp = core.sp;
        core.sp = core.other_sp;
        core.other_sp = sp;
        core.on_psp = psp;
    }
}

impl Parts {
    /// What a special register holds; a stack pointer reads 0 without privilege.
    fn read_special(&self, special: u8) -> u32
        ensures { result ≡ system.read_special (state.is_unprivileged self.now.protection)
            special (state_of self.now) }
    {
        if special == CONTROL {
            u32::from(self.protection.is_thread_unprivileged()) + 2 * u32::from(self.core.on_psp)
        } else if self.protection.is_unprivileged() {
            0
        } else if is_in_use(special, &self.core) {
            self.core.sp
        } else {
            self.core.other_sp
        }
    }

    /// MRS.
    #[tactic(auto, unfolding(machine_model::specs::Perform::perform))]
    pub fn get_special(&mut self, special: u8, register: u8, next: u32) -> Option<Event>
        ensures { left self.new result
            ≡ does (GetsSpecial special register (state.at self.old.core next)) self.old }
    {
        let value = self.read_special(special);
        self.core.pc = next;
        self.core.set_register(register, value);
        None
    }

    /// MSR: does nothing without privilege. Handler mode cannot select the stack pointer.
    #[tactic(auto, unfolding(machine_model::specs::Perform::perform))]
    pub fn set_special(&mut self, special: u8, value: u32, next: u32) -> Option<Event>
        ensures { left self.new result
            ≡ does (SetsSpecial special value (state.at self.old.core next)) self.old }
    {
        self.core.pc = next;
        if self.protection.is_unprivileged() {
            return None;
        }
        if special == CONTROL {
            if !self.protection.is_handler() {
                select_stack(&mut self.core, value / 2 % 2 == 1);
            }
            self.protection.set_unprivileged(value % 2 == 1);
        } else if is_in_use(special, &self.core) {
            self.core.sp = value / 4 * 4;
        } else {
            self.core.other_sp = value / 4 * 4;
        }
        None
    }
}
