//! The printed lines of events, of the ends of runs and of counts, in a buffer of fixed room.
#![tactic(auto)]

pub mod numbers;

ghost use Rattle.std.specs.Prelude.{◌≡◌, ◌<◌, ◌≤◌, ◌+◌, ◌++◌, [], length};
ghost use Rattle.std.specs.Fmt.{decimal};
ghost use Rattle.machine_lines.specs.Lines as lines;

use arrayvec::ArrayVec;
use base_events::event::Event;
use machine_devices::image::Window;
use machine_model::state::{End, StopReason};
use numbers::{decimal_digits, hexadecimal_digits};
use std::marker::Model;

/// The room for a line, in bytes. That of an event has at most 131: twenty for the digits of the compartment, seven bytes
/// of the direction, 64 of the name, twenty for the digits of the width, and 20 of the offset, the value and what stands
/// between them. The line of counts has at most 96: three times twenty digits, and 36 of the words.
const ROOM: usize = 136;

/// A printed line: its bytes, the line feed among them. It takes no memory.
#[derive(Drop)]
pub struct Line {
    bytes: ArrayVec<u8, ROOM>,
}

impl Model for Line {
    ghost use Rattle.std.specs.Prelude.{List, ℕ};

    ghost Value = { List ℕ };

    ghost view = { λ l. l.bytes.items };
}

/// How a line names the direction of an access.
fn direction_text(write: bool) -> &'static [u8]
    ensures text { result.now ≡ lines.direction write }
    ensures short { length result.now ≤ 7 }
{
    if write { b" write " } else { b" read " }
}

/// The name of the window of this number.
fn name_of(windows: &[Window], number: u32) -> &[u8]
    requires { number < length windows.now }
    ensures { result.now ≡ lines.name_of windows.now number }
{
    windows[number as usize].name.as_slice()
}

/// What a stopped machine's line says of the reason.
fn reason_text(reason: StopReason) -> &'static [u8]
    ensures text { result.now ≡ lines.reason reason }
    ensures short { length result.now ≤ 12 }
{
    match reason {
        StopReason::Unaligned => b"unaligned",
        StopReason::Bus => b"bus",
        StopReason::MemDisabled => b"mem-disabled",
        StopReason::Stacking => b"stacking",
        StopReason::Unstacking => b"unstacking",
        StopReason::Handler => b"handler",
        StopReason::Usage => b"usage",
        StopReason::Undefined => b"undefined",
    }
}

impl Line {
    /// A line without bytes.
    pub fn new() -> Line
        ensures { result ≡ [] }
    {
        Line {
            bytes: ArrayVec::new(),
        }
    }

    /// The bytes, lent as a slice.
    pub fn as_slice(&self) -> &[u8]
        ensures { result.now ≡ self.now }
    {
        self.bytes.as_slice()
    }

    /// Puts these bytes behind those that are there.
    fn append(&mut self, bytes: &[u8])
        requires { length self.old + length bytes.now ≤ 136 }
        ensures bytes { self.new ≡ self.old ++ bytes.now }
        ensures length { length self.new ≡ length self.old + length bytes.now }
    {
        let _ = self.bytes.try_extend_from_slice(bytes);
    }

    /// Puts so many hexadecimal digits of a number behind the bytes that are there.
    fn append_hexadecimal(&mut self, count: u8, number: u32)
        requires { length self.old + count ≤ 136 }
        ensures bytes { self.new ≡ self.old ++ lines.hexadecimal count number }
        ensures length { length self.new ≡ length self.old + count }
    {
        self.append(hexadecimal_digits(count, number).as_slice());
    }

    /// Puts a number, which has at most twenty decimal digits, behind the bytes that are there.
    fn append_decimal(&mut self, number: u64)
        requires { length self.old + 20 ≤ 136 }
        ensures bytes { self.new ≡ self.old ++ decimal number }
        ensures length { length self.new ≤ length self.old + 20 }
    {
        self.append(decimal_digits(number).as_slice());
    }
}

/// The line of an event: its compartment, direction, peripheral, offset, width and value.
/// The offset is written by its low 16 bits, which are all of it in a window of at most 64 KiB.
#[tactic(auto, unfolding(crate::specs::Lines::event_line))]
pub fn event_line(windows: &[Window], event: &Event) -> Line
    requires known { event.now.periph < length windows.now }
    requires short { length (lines.name_of windows.now event.now.periph) ≤ 64 }
    ensures { result ≡ lines.event_line windows.now event.now }
{
    let mut line = Line::new();
    line.append_decimal(u64::from(event.compartment));
    line.append(direction_text(event.write));
    line.append(name_of(windows, event.periph));
    line.append(b" 0x");
    line.append_hexadecimal(4, event.offset);
    line.append(b" ");
    line.append_decimal(u64::from(event.width));
    line.append(b" 0x");
    line.append_hexadecimal(8, event.value);
    line.append(b"\n");
    line
}

/// The line of the end of a run. A refused event has no line.
#[tactic(auto, unfolding(crate::specs::Lines::end_line))]
pub fn end_line(end: &End) -> Line
    ensures { result ≡ lines.end_line end.now }
{
    let mut line = Line::new();
    match end {
        End::Halt(number) => {
            line.append(b"end halt ");
            line.append_decimal(u64::from(*number));
            line.append(b"\n");
        }
        End::InputEnd => line.append(b"end input\n"),
        End::Limit => line.append(b"end limit\n"),
        End::Stop { reason, pc } => {
            line.append(b"end stop ");
            line.append(reason_text(*reason));
            line.append(b" 0x");
            line.append_hexadecimal(8, *pc);
            line.append(b"\n");
        }
        End::Refused => {}
    }
    line
}

/// The line of a run that ended at an access of the address that was watched.
#[tactic(auto, unfolding(crate::specs::Lines::watch_line))]
pub fn watch_line(address: u32) -> Line
    ensures { result ≡ lines.watch_line address }
{
    let mut line = Line::new();
    line.append(b"end watch 0x");
    line.append_hexadecimal(8, address);
    line.append(b"\n");
    line
}

/// The line that says how many functions, globals and peripherals a firmware has.
#[tactic(auto, unfolding(crate::specs::Lines::count_line))]
pub fn count_line(functions: usize, globals: usize, peripherals: usize) -> Line
    ensures { result ≡ lines.count_line functions globals peripherals }
{
    let mut line = Line::new();
    line.append(b"ok functions ");
    line.append_decimal(functions as u64);
    line.append(b" globals ");
    line.append_decimal(globals as u64);
    line.append(b" peripherals ");
    line.append_decimal(peripherals as u64);
    line.append(b"\n");
    line
}
