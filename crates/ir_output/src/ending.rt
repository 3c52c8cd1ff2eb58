//! The line of the end of a run.

ghost use Rattle.std.specs.Prelude.{◌≡◌, ◌++◌, codes};
ghost use Rattle.ir_run.specs.Acts.{fault_of};
ghost use Rattle.machine_lines.specs.Lines.{line_feed};
ghost use Rattle.ir_output.specs.SourceRuns as runs;
ghost use Rattle.ir_output.specs.Ends.{seen_end};

use ir_run::outcome::{FaultKind, SourceEnd};

/// The line of an end by a fault.
fn fault_line(kind: FaultKind) -> &'static [u8]
    ensures { result.now ≡ codes "end fault " ++ runs.fault_word (fault_of kind) ++ line_feed }
{
    match kind {
        FaultKind::Null => b"end fault null\n",
        FaultKind::Dead => b"end fault dead\n",
        FaultKind::NoCell => b"end fault no-cell\n",
        FaultKind::Constant => b"end fault const\n",
    }
}

/// The line of the end of a run; that of the limit where it goes on.
pub fn end_line(end: Option<SourceEnd>) -> &'static [u8]
    ensures { result.now ≡ runs.end_line (seen_end end) }
{
    match end {
        None => b"end limit\n",
        Some(SourceEnd::Returned) => b"end halt 0\n",
        Some(SourceEnd::InputEnd) => b"end input\n",
        Some(SourceEnd::Fault(kind)) => fault_line(kind),
    }
}
