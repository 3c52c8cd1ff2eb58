//! The lines of data: the stack, the monitor's block, globals, and windows of peripherals.

ghost use Rattle.std.specs.Prelude.{◌≡◌, ◌++◌, OnOk};
ghost use Rattle.plan_report.specs.Subjects.{subject_of};
ghost use Rattle.image_symbols.specs.DataLines as lines;
ghost use Rattle.image_symbols.specs.Made.{AreMade};
ghost use Rattle.ir_model.specs.Resolved.{window_at};
ghost use Rattle.ir_program.specs.Seen.{program_of};

use crate::rising::{Lying, rising};
use image_linker::LinkParts;
use ir_program::program::Program;
use plan_model::plan::Spot;
use plan_report::naming::{put_global, put_periph};
use plan_report::subject::Subject;
use plan_report::text::Text;
use plan_sizes::regions::extent_of;
use std::alloc::{AllocError, Global};

/// Puts the line of a block.
fn put_spot(text: &mut Text, word: &[u8], spot: Spot) -> Result<(), AllocError>
    ensures { OnOk result (text.new ≡ text.old ++ lines.spot_line word.now spot) }
{
    text.put(word)?;
    text.put_range(spot.base, u64::from(spot.size))?;
    text.put(b"\n")
}

/// Puts the lines of the stack and of the monitor's block.
pub(crate) fn put_blocks(text: &mut Text, subject: &Subject<'_>) -> Result<(), AllocError>
    ensures { OnOk result (text.new ≡ text.old ++ lines.block_lines (subject_of subject.now)) }
{
    put_spot(text, b"stack", subject.plan.stack)?;
    put_spot(text, b"block", subject.plan.monitor)
}

/// Puts the line of a global that lies there.
fn put_variable(text: &mut Text, subject: &Subject<'_>, of: Lying) -> Result<(), AllocError>
    ensures { OnOk result (text.new ≡ text.old ++ lines.global_line (subject_of subject.now) of) }
{
    let extent = extent_of(subject.program, of.number);
    text.put(b"global")?;
    text.put_range(of.address, u64::from(extent.size))?;
    put_global(text, subject.firmware, of.number)?;
    text.put(b"\n")
}

/// Puts the lines of globals that lie there.
fn put_variables(
    text: &mut Text,
    subject: &Subject<'_>,
    globals: &[Lying],
) -> Result<(), AllocError>
    ensures { OnOk result (text.new ≡ text.old ++ lines.global_lines_of (subject_of subject.now) globals.now) }
{
    for i in 0..globals.len() {
        put_variable(text, subject, globals[i])?;
    }
    Ok(())
}

/// Puts the lines of globals.
#[tactic(auto, unfolding(crate::specs::DataLines::global_lines))]
pub(crate) fn put_globals(
    alloc: Global,
    text: &mut Text,
    subject: &Subject<'_>,
    parts: &LinkParts,
) -> Result<(), AllocError>
    requires { AreMade subject.now parts.now }
    ensures { OnOk result (text.new ≡ text.old ++ lines.global_lines (subject_of subject.now)) }
{
    let globals = rising(alloc, parts.addresses.globals.as_slice())?;
    put_variables(text, subject, &globals)
}

/// The bytes of a window.
fn window_size(program: &Program<'_>, periph: u32) -> u32
    ensures { result ≡ (window_at (program_of program.now) periph).size }
{
    match program.periphs.as_slice().get(periph as usize) {
        Some(span) => span.size,
        None => 0,
    }
}

/// Puts the line of a window that lies there.
fn put_window(text: &mut Text, subject: &Subject<'_>, of: Lying) -> Result<(), AllocError>
    ensures { OnOk result (text.new ≡ text.old ++ lines.window_line (subject_of subject.now) of) }
{
    text.put(b"window")?;
    text.put_range(
        of.address,
        u64::from(window_size(subject.program, of.number)),
    )?;
    put_periph(text, subject.firmware, of.number as usize)?;
    text.put(b"\n")
}

/// Puts the lines of windows that lie there.
fn put_spans(text: &mut Text, subject: &Subject<'_>, windows: &[Lying]) -> Result<(), AllocError>
    ensures { OnOk result (text.new ≡ text.old ++ lines.window_lines_of (subject_of subject.now) windows.now) }
{
    for i in 0..windows.len() {
        put_window(text, subject, windows[i])?;
    }
    Ok(())
}

/// Puts the lines of windows.
#[tactic(auto, unfolding(crate::specs::DataLines::window_lines))]
pub(crate) fn put_windows(
    alloc: Global,
    text: &mut Text,
    subject: &Subject<'_>,
    parts: &LinkParts,
) -> Result<(), AllocError>
    requires { AreMade subject.now parts.now }
    ensures { OnOk result (text.new ≡ text.old ++ lines.window_lines (subject_of subject.now)) }
{
    let windows = rising(alloc, parts.addresses.windows.as_slice())?;
    put_spans(text, subject, &windows)
}
