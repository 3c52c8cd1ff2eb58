//! The parts of a running machine, and how a run ends.

ghost use Rattle.std.specs.Prelude.{◌≡◌};
ghost use Rattle.machine_emulator.specs.Parts.{state_of, left, left_by};
ghost use Rattle.machine_model.specs.State as state;

use crate::Guard;
use base_events::event::Event;
use machine_bus::bus::Bus;
use machine_model::state::{CoreRegisters, End, FaultStatus, StopReason};

/// What a machine is made of. Each function that acts on it answers the event that it makes, if it makes one.
pub struct Parts {
    /// Memory and windows.
    pub bus: Bus,
    /// The core registers.
    pub core: CoreRegisters,
    /// What decides which accesses are allowed.
    pub protection: Guard,
    /// The system registers that tell of faults.
    pub status: FaultStatus,
    /// How the machine ended, if it has.
    pub ending: Option<End>,
}

impl Drop for Parts {
    fn drop(self) {
        let Parts {
            bus: _,
            core: _,
            protection: _,
            status: _,
            ending: _,
        } = self;
    }
}

impl Parts {
    /// The machine ends, and nothing else changes.
    pub fn end(&mut self, end: End) -> Option<Event>
        ensures { left self.new result ≡ left_by self.old.bus.image (state.ends end (state_of self.old)) }
    {
        self.ending = Some(end);
        None
    }

    /// The machine stops at this instruction.
    pub fn stop(&mut self, reason: StopReason) -> Option<Event>
        ensures { left self.new result ≡ left_by self.old.bus.image (state.stops reason (state_of self.old)) }
    {
        self.end(End::Stop {
            reason,
            pc: self.core.pc,
        })
    }
}
