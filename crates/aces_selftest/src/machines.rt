//! Runs of a machine, counted.

ghost use Rattle.std.specs.Prelude.{◌≡◌, None, IfOk};
ghost use Rattle.aces_selftest.specs.Counts.{IsMachineCount};

use base_events::event::Event;
use machine_emulator::{Machine, Step};
use machine_model::laws::steps_end_or_go_on;
use machine_model::state::End;
use std::alloc::{AllocError, Global};

/// What a run of a machine did.
pub struct MachineCount {
    /// How many steps it took, with the one that ended it.
    pub steps: u64,
    /// Its accesses of peripherals, in order.
    pub events: Vec<Event>,
    /// Its end; it has none as long as it goes on.
    pub end: Option<End>,
}

impl Drop for MachineCount {
    fn drop(self) {
        let MachineCount {
            steps: _,
            events: _,
            end: _,
        } = self;
    }
}

/// Makes at most so many steps of a machine that has not ended, up to its end.
///
/// # Errors
///
/// There is no memory for what a step told.
pub fn count_machine(
    alloc: Global,
    machine: &mut Machine,
    limit: u64,
) -> Result<MachineCount, AllocError>
    requires { machine.old.state.ending ≡ None }
    ensures { IfOk result (IsMachineCount machine.old.image limit machine.old.state) }
{
    steps_end_or_go_on();
    let mut events = Vec::new(alloc);
    for made in 0..limit {
        let answer = machine.step();
        match answer {
            Step::Ran => {}
            Step::Event(event) => events.push(event)?,
            Step::Ended(end) => {
                return Ok(MachineCount {
                    steps: made + 1,
                    events,
                    end: Some(end),
                });
            }
        }
    }
    Ok(MachineCount {
        steps: limit,
        events,
        end: None,
    })
}
