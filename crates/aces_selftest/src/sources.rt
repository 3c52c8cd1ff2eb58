//! Runs of a source, counted.

ghost use Rattle.std.specs.Prelude.{◌≡◌, None, IfOk};
ghost use Rattle.ir_output.specs.SourceRuns.{ending_of};
ghost use Rattle.aces_selftest.specs.Counts.{IsSourceCount};

use base_events::event::Event;
use ir_run::outcome::{SourceEnd, SourceStep};
use ir_run::run::SourceRun;
use std::alloc::{AllocError, Global};

/// What a run of a source did.
pub struct SourceCount {
    /// How many steps it took, with the one that ended it.
    pub steps: u32,
    /// Its accesses of peripherals, in order.
    pub events: Vec<Event>,
    /// Its end; it has none as long as it goes on.
    pub end: Option<SourceEnd>,
}

impl Drop for SourceCount {
    fn drop(self) {
        let SourceCount {
            steps: _,
            events: _,
            end: _,
        } = self;
    }
}

/// Makes at most so many steps of a run that has made none, up to its end.
///
/// # Errors
///
/// There is no memory for a step, or for what it told.
pub fn count_source(
    alloc: Global,
    run: &mut SourceRun<'_>,
    limit: u32,
) -> Result<SourceCount, AllocError>
    requires first { run.old.taken ≡ 0 }
    requires begins { ending_of run.old.state ≡ None }
    ensures { IfOk result (IsSourceCount run.old.program run.old.compartments limit run.old.state) }
{
    let mut events = Vec::new(alloc);
    for made in 0..limit {
        let answer = run.step()?;
        match answer {
            SourceStep::Ran => {}
            SourceStep::Event(event) => events.push(event)?,
            SourceStep::Ended(end) => {
                return Ok(SourceCount {
                    steps: made + 1,
                    events,
                    end: Some(end),
                });
            }
        }
    }
    Ok(SourceCount {
        steps: limit,
        events,
        end: None,
    })
}
