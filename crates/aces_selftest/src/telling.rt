//! The five lines of a self-test.

ghost use Rattle.std.specs.Prelude.{◌≡◌, ◌++◌, Ok, codes, length, unwrap_or, IfOk, OnOk};
ghost use Rattle.std.specs.Bool.{Decides};
ghost use Rattle.machine_model.specs.declared.state.End.TheVariants.{Limit};
ghost use Rattle.machine_lines.specs.Lines as machine_lines;
ghost use Rattle.aces_reports.specs.Ends.{status_of};
ghost use Rattle.aces_selftest.specs.Lines as lines;
ghost use Rattle.aces_selftest.specs.Tested.{source_seen, image_seen, IsTold};

use crate::testing::Tested;
use aces_files::telling::CommandOutput;
use aces_reports::Done;
use base_events::event::Event;
use ir_model::firmware::Firmware;
use ir_output::ending;
use machine_lines::{Line, end_line};
use machine_model::state::End;
use plan_report::text::Text;
use std::alloc::{AllocError, Global};

/// The line of the end of a run of the image; that of the limit where it goes on.
fn image_end_line(end: Option<End>) -> Line
    ensures { result ≡ machine_lines.end_line (unwrap_or end Limit) }
{
    match end {
        None => end_line(&End::Limit),
        Some(end) => end_line(&end),
    }
}

/// Whether both runs made the same accesses.
fn same_events(one: &[Event], other: &[Event]) -> bool
    ensures { Decides result (one.now ≡ other.now) }
{
    one == other
}

/// Whether both runs ended by the same line.
fn same_line(one: &[u8], other: &[u8]) -> bool
    ensures { Decides result (one.now ≡ other.now) }
{
    one == other
}

/// Puts the counts of the firmware.
fn put_firmware(
    text: &mut Text,
    functions: usize,
    globals: usize,
    peripherals: usize,
) -> Result<(), AllocError>
    ensures { OnOk result (text.new ≡ text.old ++ lines.firmware_line functions globals peripherals) }
{
    text.put(b"functions ")?;
    text.put_decimal(functions as u64)?;
    text.put(b" globals ")?;
    text.put_decimal(globals as u64)?;
    text.put(b" peripherals ")?;
    text.put_decimal(peripherals as u64)?;
    text.put(b"\n")
}

/// Puts how many compartments and crossing sites the image has.
fn put_division(text: &mut Text, compartments: usize, sites: usize) -> Result<(), AllocError>
    ensures { OnOk result (text.new ≡ text.old ++ lines.division_line compartments sites) }
{
    text.put(b"compartments ")?;
    text.put_decimal(compartments as u64)?;
    text.put(b" sites ")?;
    text.put_decimal(sites as u64)?;
    text.put(b"\n")
}

/// Puts what a run did: its steps, how many events it made, and the line of its end.
fn put_run(
    text: &mut Text,
    word: &[u8],
    steps: u64,
    events: usize,
    end: &[u8],
) -> Result<(), AllocError>
    ensures { OnOk result (text.new ≡ text.old ++ lines.counted_line word.now steps events end.now) }
{
    text.put(word)?;
    text.put_decimal(steps)?;
    text.put(b" steps ")?;
    text.put_decimal(events as u64)?;
    text.put(b" events ")?;
    text.put(end)
}

/// Puts both runs.
fn put_runs(text: &mut Text, tested: &Tested, source: &[u8], image: &[u8]) -> Result<(), AllocError>
    requires source { source.now ≡ (source_seen tested.now.source).end }
    requires image { image.now ≡ (image_seen tested.now.image).end }
    ensures { OnOk result (text.new ≡ text.old ++ lines.run_line (codes "source ") (source_seen tested.now.source) ++ lines.run_line (codes "image ") (image_seen tested.now.image)) }
{
    let steps = u64::from(tested.source.steps);
    put_run(text, b"source ", steps, tested.source.events.len(), source)?;
    put_run(
        text,
        b"image ",
        tested.image.steps,
        tested.image.events.len(),
        image,
    )
}

/// The last line.
fn verdict_line(alike: bool) -> &'static [u8]
    ensures { result.now ≡ lines.verdict_line alike }
{
    if alike { b"same\n" } else { b"differ\n" }
}

/// The outcome of a self-test.
fn done_by(alike: bool) -> Done
    ensures { status_of (Ok result) ≡ lines.verdict_status alike }
{
    if alike {
        Done::Completed
    } else {
        Done::RunFailed
    }
}

/// What is told of a self-test of a firmware: its five lines, and that the command ends completed where both runs are alike, else failed.
pub(crate) fn tell(
    alloc: Global,
    firmware: &Firmware,
    tested: &Tested,
) -> Result<CommandOutput, AllocError>
    ensures { IfOk result (IsTold (length firmware.now.globals) (length firmware.now.periphs) tested.now) }
{
    let source_end = ending::end_line(tested.source.end);
    let image_line = image_end_line(tested.image.end);
    let image_end = image_line.as_slice();
    let events = same_events(
        tested.source.events.as_slice(),
        tested.image.events.as_slice(),
    );
    let alike = events && same_line(source_end, image_end);
    let mut text = Text::new(alloc);
    put_firmware(
        &mut text,
        tested.functions,
        firmware.globals.len(),
        firmware.periphs.len(),
    )?;
    put_division(&mut text, tested.compartments, tested.sites)?;
    put_runs(&mut text, tested, source_end, image_end)?;
    text.put(verdict_line(alike))?;
    Ok(CommandOutput {
        lines: text.into_bytes(),
        done: done_by(alike),
    })
}
