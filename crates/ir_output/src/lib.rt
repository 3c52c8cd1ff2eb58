//! A run of the source of a firmware, printed line by line.
#![tactic(auto)]

ghost use Rattle.std.specs.Prelude.{◌≡◌, ◌++◌, IsTrue, IfOk, IfErr, OnOk, OnErr};
ghost use Rattle.base_outside.specs.Contents.{AddsPrefix};
ghost use Rattle.ir_model.specs.Canonical.{IsWithinLimits};
ghost use Rattle.ir_model.specs.Plain.{firmware_of};
ghost use Rattle.ir_model.specs.Resolve.{resolve};
ghost use Rattle.ir_program.specs.Seen.{program_of};
ghost use Rattle.ir_program.specs.Windows.{windows_of};
ghost use Rattle.ir_output.specs.SourceRuns.{source_run, source_end, source_event_lines, source_lines};
ghost use Rattle.ir_output.specs.Ends.{seen_end, IsCause};

pub mod ending;
mod stepping;

use base_outside::{Failed, Sink};
use ending::end_line;
use ir_model::checked::Checked;
use ir_program::program::Program;
use ir_run::outcome::SourceEnd;
use ir_run::run::SourceRun;
use machine_devices::image::Window;
use machine_devices::tape::Tape;
use std::alloc::{AllocError, Global};
use stepping::print_events;
use thiserror::Error;

/// Why a run was broken off.
#[derive(Clone, Copy, Debug, Error)]
pub enum Broken {
    /// A line was not put.
    #[error("a line was not put")]
    Unprinted,
    /// Memory ran out.
    #[error("out of memory")]
    NoMemory,
}

impl From<AllocError> for Broken {
    ghost use Rattle.ir_output.specs.declared.Broken.TheVariants.{NoMemory};

    ghost from_gives = { λ _ broken. broken ≡ NoMemory };

    fn from(_error: AllocError) -> Broken {
        Broken::NoMemory
    }
}

impl From<Failed> for Broken {
    ghost use Rattle.ir_output.specs.declared.Broken.TheVariants.{Unprinted};

    ghost from_gives = { λ _ broken. broken ≡ Unprinted };

    fn from(_error: Failed) -> Broken {
        Broken::Unprinted
    }
}

/// The run of a firmware on a tape before its first step, by its program of numbers, in these compartments.
///
/// # Errors
///
/// There is no memory for it.
pub fn run_at_start<'a>(
    alloc: Global,
    firmware: &Checked,
    program: &'a Program<'a>,
    compartments: Vec<u32>,
    tape: Tape,
) -> Result<SourceRun<'a>, AllocError>
    requires { program_of program.now ≡ resolve (firmware_of firmware.now) }
    ensures run { IfOk result (λ run. run ≡ source_run (firmware_of firmware.now) compartments.items tape) }
    ensures within { OnOk result (IsWithinLimits (firmware_of firmware.now)) }
{
    firmware.firmware();
    let run = SourceRun::start(alloc, program, compartments, tape)?;
    Ok(run)
}

/// Runs a firmware by its program of numbers and puts the lines of its events. Answers how the run ended.
fn print_run<O: Sink>(
    alloc: Global,
    firmware: &Checked,
    program: &Program<'_>,
    windows: &[Window],
    compartments: Vec<u32>,
    tape: Tape,
    steps: u32,
    out: &mut O,
) -> Result<Option<SourceEnd>, Broken>
    requires windows { windows.now ≡ windows_of (firmware_of firmware.now) }
    requires program { program_of program.now ≡ resolve (firmware_of firmware.now) }
    ensures end { IfOk result (λ end. seen_end end ≡ source_end (firmware_of firmware.now) compartments.items tape steps) }
    ensures lines { IsTrue O.told → OnOk result
        (O.written out.new ≡ O.written out.old ++ source_event_lines (firmware_of firmware.now) compartments.items tape steps) }
    ensures faultless { OnOk result (O.faults out.new ≡ O.faults out.old) }
    ensures cause { IfErr result (IsCause (O.faults out.old) (O.faults out.new)) }
    ensures part { IsTrue O.told → OnErr result
        (AddsPrefix (O.written out.old) (O.written out.new) (source_event_lines (firmware_of firmware.now) compartments.items tape steps)) }
{
    let mut run = run_at_start(alloc, firmware, program, compartments, tape)?;
    print_events(&mut run, windows, steps, out)
}

/// Runs the source of a firmware on a tape for at most so many steps, by its program of numbers, in these
/// compartments. Puts the line of each event, and then that of the end, by one put each. Answers how it ended, or `None` where
/// it ran all the steps without an end.
///
/// # Errors
///
/// A put failed, and it was the last; or there was no memory for a step. The lines up to there are put.
pub fn print_source<O: Sink>(
    alloc: Global,
    firmware: &Checked,
    program: &Program<'_>,
    windows: &[Window],
    compartments: Vec<u32>,
    tape: Tape,
    steps: u32,
    out: &mut O,
) -> Result<Option<SourceEnd>, Broken>
    requires windows { windows.now ≡ windows_of (firmware_of firmware.now) }
    requires program { program_of program.now ≡ resolve (firmware_of firmware.now) }
    ensures end { IfOk result (λ end. seen_end end ≡ source_end (firmware_of firmware.now) compartments.items tape steps) }
    ensures lines { IsTrue O.told → OnOk result
        (O.written out.new ≡ O.written out.old ++ source_lines (firmware_of firmware.now) compartments.items tape steps) }
    ensures faultless { OnOk result (O.faults out.new ≡ O.faults out.old) }
    ensures cause { IfErr result (IsCause (O.faults out.old) (O.faults out.new)) }
    ensures part { IsTrue O.told → OnErr result
        (AddsPrefix (O.written out.old) (O.written out.new) (source_lines (firmware_of firmware.now) compartments.items tape steps)) }
{
    let end = print_run(
        alloc,
        firmware,
        program,
        windows,
        compartments,
        tape,
        steps,
        out,
    )?;
    out.put(end_line(end))?;
    Ok(end)
}
