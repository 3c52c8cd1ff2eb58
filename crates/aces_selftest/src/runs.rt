//! Both runs of a self-test, on the same recorded input.

ghost use Rattle.std.specs.Prelude.{◌≡◌, ◌+◌, ◌*◌, ◌≤◌, length, IfOk};
ghost use Rattle.machine_devices.specs.Rules.{ObeysRules};
ghost use Rattle.ir_model.specs.Plain.{firmware_of};
ghost use Rattle.ir_model.specs.State.{start};
ghost use Rattle.ir_program.specs.Seen.{program_of};
ghost use Rattle.ir_model.specs.Checked.{IsChecked};
ghost use Rattle.aces_compiler.specs.PrintedRuns.{begin};
ghost use Rattle.aces_selftest.specs.Answers.{source_limit};
ghost use Rattle.aces_selftest.specs.Counts.{IsSourceCount, IsMachineCount};
ghost use Rattle.refine_model.specs.Refines as refines;
ghost use Rattle.aces_selftest.specs.Tested.{IsSourceTest};

use crate::machines::{MachineCount, count_machine};
use crate::sources::{SourceCount, count_source};
use aces_files::run::FILL;
use ir_model::checked::Checked;
use ir_program::program::Program;
use ir_run::run::SourceRun;
use machine_devices::image::Image;
use machine_devices::tape::Tape;
use machine_emulator::Machine;
use plan_firmwares::analyse;
use plan_model::Policy;
use std::alloc::{AllocError, Global};

/// How many steps a source is run at most.
const SOURCE_LIMIT: u32 = 100_000;

/// A run of a source, and how many functions it has.
#[derive(Drop)]
pub(crate) struct SourceTest {
    pub(crate) functions: usize,
    pub(crate) count: SourceCount,
}

/// Runs a numbered source in these compartments, and counts its steps.
fn count_of_run(
    alloc: Global,
    program: &Program<'_>,
    compartments: Vec<u32>,
    tape: Tape,
) -> Result<SourceCount, AllocError>
    requires { IsChecked (program_of program.now) }
    ensures { IfOk result (IsSourceCount (program_of program.now) compartments.items source_limit (start (program_of program.now) tape)) }
{
    let mut run = SourceRun::start(alloc, program, compartments, tape)?;
    let count = count_source(alloc, &mut run, SOURCE_LIMIT)?;
    Ok(count)
}

/// Runs the source of a firmware in the compartments of its files.
pub(crate) fn run_source(
    alloc: Global,
    firmware: &Checked,
    tape: Tape,
) -> Result<SourceTest, AllocError>
    ensures { IfOk result (IsSourceTest (firmware_of firmware.now) tape) }
{
    firmware.firmware();
    let analysis = analyse(alloc, firmware, Policy::Filename, false)?;
    let (program, _, groups) = analysis.into_parts();
    let functions = program.funcs.len();
    let count = count_of_run(alloc, &program, groups.of.into_vec(), tape)?;
    Ok(SourceTest { functions, count })
}

/// How many steps a machine may take for so many of the source, with so many initial words.
pub(crate) fn machine_limit(steps: u32, words: usize) -> u64
    requires { words ≤ 0x100000 }
    ensures { result ≡ refines.step_limit * (steps + 1) + refines.word_limit * words }
{
    16384 * (u64::from(steps) + 1) + 64 * words as u64
}

/// Runs an image.
pub(crate) fn run_image(
    alloc: Global,
    image: &Image,
    tape: Tape,
    limit: u64,
) -> Result<MachineCount, AllocError>
    requires rules { ObeysRules image.now }
    requires queues { length tape ≡ length image.now.windows }
    ensures { IfOk result (IsMachineCount image.now limit (begin image.now tape)) }
{
    let mut machine = Machine::start(alloc, image, tape, FILL)?;
    count_machine(alloc, &mut machine, limit)
}
