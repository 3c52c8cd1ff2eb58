//! A run of an image, printed line by line up to an access of one address.

ghost use Rattle.std.specs.Prelude.{◌≡◌, ◌≢◌, ◌+◌, ◌<◌, ◌^◌, Bool, None, IsTrue, IsFalse, IfSome, IfOk, OnErr};
ghost use Rattle.std.specs.Fn.{FnReturnsAt};
ghost use Rattle.machine_bus.specs.Locations.{inside};
ghost use Rattle.machine_devices.specs.Rules.{ObeysRules};
ghost use Rattle.machine_model.specs.declared.state.End.TheVariants.{Limit};
ghost use Rattle.machine_watch.specs.Answers.{AnswersEqually};
ghost use Rattle.machine_watch.specs.declared.session.Pause.TheVariants.{Ended};
ghost use Rattle.base_outside.specs.Sinks.{Puts, sink};
ghost use Rattle.machine_output.specs.Runs.{HasLine};
ghost use Rattle.machine_output.specs.Watches as watches;
ghost use Rattle.machine_output.specs.Watching as watching;

use crate::put_event;
use base_events::event::Event;
use base_outside::{Failed, Sink};
use machine_devices::image::{Image, Window};
use machine_lines::{Line, end_line, watch_line};
use machine_model::laws::{ended_machines, listed_accesses};
use machine_model::state::End;
use machine_watch::session::{Pause, Session};

/// Whether the address is among so many bytes from an offset behind a base on.
fn has_byte(base: u32, offset: u32, width: u8, address: u32) -> bool
    ensures { result ≡ inside (base + offset) width address }
{
    let first = u64::from(base) + u64::from(offset);
    let address = u64::from(address);
    first <= address && address < first + u64::from(width)
}

/// Whether an event is an access of this address: it is one of a window, and the address is among its bytes.
pub fn is_access(windows: &[Window], address: u32, event: &Event) -> bool
    ensures { result ≡ watches.accesses windows.now address event.now }
{
    match windows.get(event.periph as usize) {
        Some(window) => has_byte(window.base, event.offset, event.width, address),
        None => false,
    }
}

/// What a step told, and why the run pauses behind it.
#[derive(Clone, Copy)]
struct Stepped {
    told: Option<Event>,
    pause: Pause,
}

/// Makes one step.
fn step_once<F: Fn(&Event) -> bool + Drop>(session: &mut Session<F>) -> Stepped
    requires callable { F.IsAlwaysCallable session.old.callback }
    requires equally { AnswersEqually (FnReturnsAt F.Fn session.old.callback) }
    requires range { session.old.taken + 1 < 2 ^ 64 }
    requires begins { session.old.machine.state.ending ≡ None }
    ensures { watching.IsStepped (FnReturnsAt F.Fn session.old.callback) session.old session.new result.told result.pause }
{
    let mut told = None;
    let pause = session.go(1, &mut |event: &Event| told = Some(*event));
    Stepped { told, pause }
}

/// Puts the line of a step, and answers whether it was put.
fn put_told<O: Sink>(out: &mut O, windows: &[Window], told: Option<Event>) -> bool
    requires { IfSome told (HasLine windows.now) }
    ensures { Puts (sink O.Sink out.old) (sink O.Sink out.new) (watching.told_line windows.now told) result }
{
    match told {
        Some(event) => put_event(out, windows, &event),
        None => true,
    }
}

/// Whether a step's pause lets the run go on.
fn goes_on(pause: &Pause) -> bool
    ensures yes { IsTrue result → pause.now ≡ Ended Limit }
    ensures no { IsFalse result → pause.now ≢ Ended Limit }
{
    matches!(pause, Pause::Ended(End::Limit))
}

/// Runs on to the pause, and prints the line of each event.
fn print_to_pause<F: Fn(&Event) -> bool + Drop, O: Sink>(
    session: &mut Session<F>,
    image: &Image,
    steps: u32,
    out: &mut O,
) -> Result<Pause, Failed>
    requires callable { F.IsAlwaysCallable session.old.callback }
    requires equally { AnswersEqually (FnReturnsAt F.Fn session.old.callback) }
    requires rules { ObeysRules image.now }
    requires image { session.old.machine.image ≡ image.now }
    requires begins { session.old.machine.state.ending ≡ None }
    requires range { session.old.taken + steps < 2 ^ 64 }
    ensures ok { IfOk result (λ pause. watching.IsPrinted (FnReturnsAt F.Fn session.old.callback) image.now steps session.old.machine.state
        (sink O.Sink out.old) (sink O.Sink out.new) pause) }
    ensures err { OnErr result (watching.IsBroken (FnReturnsAt F.Fn session.old.callback) image.now steps session.old.machine.state
        (sink O.Sink out.old) (sink O.Sink out.new)) }
{
    listed_accesses();
    let windows = image.windows.as_slice();
    for _step in 0..steps {
        let stepped = step_once(session);
        if !put_told(out, windows, stepped.told) {
            return Err(Failed);
        }
        if !goes_on(&stepped.pause) {
            return Ok(stepped.pause);
        }
    }
    Ok(Pause::Ended(End::Limit))
}

/// The line of a pause.
fn pause_line(address: u32, pause: &Pause) -> Line
    ensures { result ≡ watching.pause_line address pause.now }
{
    match pause {
        Pause::Hit(_) => watch_line(address),
        Pause::Ended(end) => end_line(end),
    }
}

/// Puts a line, and answers whether it was put.
fn put_line<O: Sink>(out: &mut O, line: &Line) -> bool
    ensures { Puts (sink O.Sink out.old) (sink O.Sink out.new) line.now result }
{
    out.put(line.as_slice()).is_ok()
}

/// Runs a watched machine of this image for at most so many steps, up to and with the first access of the address that is watched
/// for. Puts the line of each event, and then that of the pause, by one put each. Answers the pause. Takes no memory.
///
/// # Errors
///
/// A put failed, and it was the last.
pub fn print_watched<F: Fn(&Event) -> bool + Drop, O: Sink>(
    session: &mut Session<F>,
    image: &Image,
    address: u32,
    steps: u32,
    out: &mut O,
) -> Result<Pause, Failed>
    requires callable { F.IsAlwaysCallable session.old.callback }
    requires answers { (e : Event) (b : Bool) → FnReturnsAt F.Fn session.old.callback e b → watches.AnswersAt image.now.windows address e b }
    requires rules { ObeysRules image.now }
    requires image { session.old.machine.image ≡ image.now }
    requires begins { session.old.machine.state.ending ≡ None }
    requires range { session.old.taken + steps < 2 ^ 64 }
    ensures ok { IfOk result (λ pause. watching.IsWhole image.now address steps session.old.machine.state (sink O.Sink out.old) (sink O.Sink out.new) pause) }
    ensures err { OnErr result (watching.IsPart image.now address steps session.old.machine.state (sink O.Sink out.old) (sink O.Sink out.new)) }
{
    ended_machines();
    let pause = print_to_pause(session, image, steps, out)?;
    if put_line(out, &pause_line(address, &pause)) {
        Ok(pause)
    } else {
        Err(Failed)
    }
}
