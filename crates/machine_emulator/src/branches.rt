//! Branches to an address in a register (Armv7-M ARM, BXWritePC and BLXWritePC).

ghost use Rattle.std.specs.Prelude.{◌≡◌, ◌%◌, ◌<◌};
ghost use Rattle.machine_model.specs.Act.{Exchanges, Changes, Halts};
ghost use Rattle.machine_model.specs.Instructions as instructions;
ghost use Rattle.machine_emulator.specs.Parts.{left, does};

use crate::parts::Parts;
use base_events::event::Event;
use machine_model::state::{CoreRegisters, End, StopReason};

impl Parts {
    /// The registers change, and nothing else.
    #[tactic(auto, unfolding(machine_model::specs::Perform::perform))]
    pub fn change(&mut self, core: CoreRegisters) -> Option<Event>
        ensures { left self.new result ≡ does (Changes core) self.old }
    {
        self.core = core;
        None
    }

    /// A branch whose bit 0 is the Thumb state, with these registers.
    #[tactic(auto, unfolding(machine_model::specs::Perform::perform))]
    fn jump(&mut self, target: u32, core: CoreRegisters) -> Option<Event>
        ensures { left self.new result ≡ does (instructions.jump target core) self.old }
    {
        if target % 2 == 0 {
            return self.stop(StopReason::Usage);
        }
        self.change(CoreRegisters {
            pc: target - 1,
            ..core
        })
    }

    /// BLX: a branch with a link.
    pub fn call_register(&mut self, target: u32, link: u32) -> Option<Event>
        ensures { left self.new result
            ≡ does (instructions.jump target (record self.old.core { lr = link })) self.old }
    {
        let core = CoreRegisters {
            lr: link,
            ..self.core
        };
        self.jump(target, core)
    }

    /// BKPT.
    #[tactic(auto, unfolding(machine_model::specs::Perform::perform))]
    pub fn halt(&mut self, number: u8) -> Option<Event>
        ensures { left self.new result ≡ does (Halts number) self.old }
    {
        self.end(End::Halt(number))
    }

    /// BX: an exception return in Handler mode, else a branch.
    #[tactic(auto, unfolding(machine_model::specs::Perform::perform))]
    pub fn exchange(&mut self, target: u32) -> Option<Event>
        requires sp { self.old.core.sp % 4 ≡ 0 }
        requires other_sp { self.old.core.other_sp % 4 ≡ 0 }
        ensures { left self.new result ≡ does (Exchanges target) self.old }
    {
        let handler = self.protection.is_handler();
        match target {
            0xFFFF_FFFD if handler => self.return_from(true),
            0xFFFF_FFF9 if handler => self.return_from(false),
            _ => self.jump(target, self.core),
        }
    }
}
