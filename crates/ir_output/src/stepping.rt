//! The steps of a run, with the lines of their events.

ghost use Rattle.std.specs.Prelude.{◌≡◌, ◌≤◌, ◌++◌, ℕ, length, None, IsTrue, IfOk, IfErr, OnOk, OnErr};
ghost use Rattle.base_outside.specs.Contents.{AddsPrefix};
ghost use Rattle.machine_lines.specs.Lines.{name_of};
ghost use Rattle.ir_output.specs.SourceRuns.{ending_of, end_of, event_lines};
ghost use Rattle.ir_output.specs.Ends.{seen_end, IsCause};

use crate::Broken;
use base_outside::Sink;
use ir_run::outcome::{SourceEnd, SourceStep};
use ir_run::run::SourceRun;
use machine_devices::image::Window;
use machine_lines::event_line;

/// Makes at most so many steps of a run, puts the line of each event, and answers how it ended.
///
/// # Errors
///
/// A put failed, and it was the last; or there was no memory for a step.
pub(crate) fn print_events<O: Sink>(
    run: &mut SourceRun<'_>,
    windows: &[Window],
    steps: u32,
    out: &mut O,
) -> Result<Option<SourceEnd>, Broken>
    requires first { run.old.taken ≡ 0 }
    requires begins { ending_of run.old.state ≡ None }
    requires windows { length windows.now ≡ length run.old.program.periphs }
    requires short { (k : ℕ) → length (name_of windows.now k) ≤ 64 }
    ensures end { IfOk result (λ end. seen_end end ≡ end_of run.old.program run.old.compartments steps run.old.state) }
    ensures lines { IsTrue O.told → OnOk result
        (O.written out.new ≡ O.written out.old ++ event_lines run.old.program run.old.compartments windows.now steps run.old.state) }
    ensures faultless { OnOk result (O.faults out.new ≡ O.faults out.old) }
    ensures cause { IfErr result (IsCause (O.faults out.old) (O.faults out.new)) }
    ensures part { IsTrue O.told → OnErr result
        (AddsPrefix (O.written out.old) (O.written out.new) (event_lines run.old.program run.old.compartments windows.now steps run.old.state)) }
{
    for _step in 0..steps {
        let answer = run.step()?;
        match answer {
            SourceStep::Ran => {}
            SourceStep::Event(event) => out.put(event_line(windows, &event).as_slice())?,
            SourceStep::Ended(end) => return Ok(Some(end)),
        }
    }
    Ok(None)
}
