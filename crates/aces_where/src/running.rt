//! Runs of the source that print nothing.

ghost use Rattle.std.specs.Prelude.{◌≡◌, None, IfOk, OnOk};
ghost use Rattle.ir_model.specs.Step.{source_step};
ghost use Rattle.base_words.specs.Runs as runs;
ghost use Rattle.ir_output.specs.SourceRuns.{ending_of};
ghost use Rattle.aces_where.specs.Halts.{IsHalt};

use ir_run::outcome::{SourceEnd, SourceStep};
use ir_run::run::SourceRun;
use std::alloc::AllocError;

/// How far a run came.
#[derive(Clone, Copy)]
pub(crate) struct Halt {
    /// After how many steps it goes on.
    pub(crate) going: u32,
    /// How many steps were made, with the one that ended it.
    pub(crate) made: u32,
    /// Its end; it has none where it made all steps.
    pub(crate) end: Option<SourceEnd>,
}

/// Makes so many steps of a run, or as many as it takes until it ends.
///
/// # Errors
///
/// There is no memory for a step.
pub(crate) fn run_out(run: &mut SourceRun<'_>, most: u32) -> Result<Halt, AllocError>
    requires first { run.old.taken ≡ 0 }
    requires begins { ending_of run.old.state ≡ None }
    ensures { IfOk result (IsHalt run.old.program run.old.compartments most run.old.state) }
{
    for going in 0..most {
        let answer = run.step()?;
        match answer {
            SourceStep::Ran => {}
            SourceStep::Event(_) => {}
            SourceStep::Ended(end) => {
                return Ok(Halt {
                    going,
                    made: going + 1,
                    end: Some(end),
                });
            }
        }
    }
    Ok(Halt {
        going: most,
        made: most,
        end: None,
    })
}

/// Makes so many steps of a run.
///
/// # Errors
///
/// There is no memory for a step.
pub(crate) fn go(run: &mut SourceRun<'_>, steps: u32) -> Result<(), AllocError>
    requires { run.old.taken ≡ 0 }
    ensures state { OnOk result (run.new.state ≡ runs.run (source_step run.old.program run.old.compartments) steps run.old.state) }
    ensures program { OnOk result (run.new.program ≡ run.old.program) }
{
    for _step in 0..steps {
        run.step()?;
    }
    Ok(())
}
