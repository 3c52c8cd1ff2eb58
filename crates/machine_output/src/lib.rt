//! A run of an image, printed line by line.
#![tactic(auto)]

pub mod watching;

ghost use Rattle.std.specs.Prelude.{◌≡◌, ◌≢◌, ◌++◌, IsTrue, IfOk, OnErr, OnOk, None};
ghost use Rattle.base_outside.specs.Counts.{Rose};
ghost use Rattle.base_outside.specs.Contents.{AddsPrefix};
ghost use Rattle.machine_devices.specs.Rules.{ObeysRules};
ghost use Rattle.machine_lines.specs.Lines as lines;
ghost use Rattle.base_outside.specs.Sinks.{Puts, sink};
ghost use Rattle.machine_model.specs.declared.state.End.TheVariants.{Refused};
ghost use Rattle.machine_output.specs.Runs.{end_of, event_lines, run_lines, HasLine};
ghost use Rattle.machine_output.specs.Printed.{IsWhole, IsPart};

use base_events::event::Event;
use base_outside::{Failed, Sink};
use machine_devices::image::{Image, Window};
use machine_emulator::Machine;
use machine_lines::{end_line, event_line};
use machine_model::laws::{ended_machines, listed_accesses};
use machine_model::state::End;

/// Runs a machine of this image for at most so many steps, puts the line of each event, and then that of the end, by one put
/// each. Answers how it ended. Takes no memory.
///
/// # Errors
///
/// A put failed, and it was the last.
pub fn print_run<O: Sink>(
    machine: &mut Machine,
    image: &Image,
    steps: u32,
    out: &mut O,
) -> Result<End, Failed>
    requires rules { ObeysRules image.now }
    requires image { machine.old.image ≡ image.now }
    requires begins { machine.old.state.ending ≡ None }
    ensures end { IfOk result (λ end. end ≡ end_of image.now steps machine.old.state) }
    ensures lines { IsTrue O.told → OnOk result
        (O.written out.new ≡ O.written out.old ++ run_lines image.now steps machine.old.state) }
    ensures faultless { OnOk result (O.faults out.new ≡ O.faults out.old) }
    ensures cause { OnErr result (Rose (O.faults out.old) (O.faults out.new)) }
    ensures part { IsTrue O.told → OnErr result
        (AddsPrefix (O.written out.old) (O.written out.new) (run_lines image.now steps machine.old.state)) }
{
    let end = print_events(machine, image, steps, out)?;
    out.put(end_line(&end).as_slice())?;
    Ok(end)
}

/// Whether the event is one of these windows, and the name of its window has at most 64 bytes.
fn has_line(windows: &[Window], event: &Event) -> bool
    ensures true_where { HasLine windows.now event.now → IsTrue result }
    ensures true_only_where { IsTrue result → HasLine windows.now event.now }
{
    match windows.get(event.periph as usize) {
        Some(window) => window.name.len() <= 64,
        None => false,
    }
}

/// Puts the line of an event of one of these windows, and answers whether it was put.
fn put_event<O: Sink>(out: &mut O, windows: &[Window], event: &Event) -> bool
    ensures { HasLine windows.now event.now →
        Puts (sink O.Sink out.old) (sink O.Sink out.new) (lines.event_line windows.now event.now) result }
{
    has_line(windows, event) && out.put(event_line(windows, event).as_slice()).is_ok()
}

/// Runs a machine, prints each event's line, and answers the end: a refusal where a put failed.
fn run_printed<O: Sink>(machine: &mut Machine, image: &Image, steps: u32, out: &mut O) -> End
    requires rules { ObeysRules image.now }
    requires image { machine.old.image ≡ image.now }
    requires begins { machine.old.state.ending ≡ None }
    ensures whole { result ≢ Refused → IsWhole image.now steps machine.old.state (sink O.Sink out.old) (sink O.Sink out.new) result }
    ensures part { result ≡ Refused → IsPart image.now steps machine.old.state (sink O.Sink out.old) (sink O.Sink out.new) }
{
    ended_machines();
    listed_accesses();
    let windows = image.windows.as_slice();
    let mut put = |event: &Event| put_event(out, windows, event);
    machine.run(u64::from(steps), &mut put)
}

/// Runs a machine, prints the events, and answers the end.
fn print_events<O: Sink>(
    machine: &mut Machine,
    image: &Image,
    steps: u32,
    out: &mut O,
) -> Result<End, Failed>
    requires rules { ObeysRules image.now }
    requires image { machine.old.image ≡ image.now }
    requires begins { machine.old.state.ending ≡ None }
    ensures end { IfOk result (λ end. end ≡ end_of image.now steps machine.old.state) }
    ensures lines { IsTrue O.told → OnOk result
        (O.written out.new ≡ O.written out.old ++ event_lines image.now steps machine.old.state) }
    ensures faultless { OnOk result (O.faults out.new ≡ O.faults out.old) }
    ensures cause { OnErr result (Rose (O.faults out.old) (O.faults out.new)) }
    ensures part { IsTrue O.told → OnErr result
        (AddsPrefix (O.written out.old) (O.written out.new) (event_lines image.now steps machine.old.state)) }
{
    match run_printed(machine, image, steps, out) {
        End::Refused => Err(Failed),
        end => Ok(end),
    }
}
