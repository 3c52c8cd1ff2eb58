//! The line that tells why a command was stopped, put piece by piece, which takes no memory.

ghost use Rattle.std.specs.Prelude.{◌≡◌, ◌++◌, Err};
ghost use Rattle.std.specs.Fmt.{decimal};
ghost use Rattle.plan_board.specs.Keys.{path_of};
ghost use Rattle.aces_reports.specs.FaultLines as lines;
ghost use Rattle.aces_reports.specs.Ends.{status_of, line_of};
ghost use Rattle.base_outside.specs.Sinks.{PutsLine, sink};

use crate::failure::{Done, Failure, Fault};
use base_outside::Sink;
use ir_check_scopes::CheckFault;
use ir_model::check::{CheckKind, CheckPlace};
use ir_model::token::{Pos, TextLimit};
use ir_reader::TextFault;
use machine_devices::tape::TapeFault;
use machine_image::fault::ImageFault;
use plan_board::fault::BoardFault;
use plan_board::key::Key;
use plan_layout::refusal::{Lack, Memory};
use plan_model::limits::LimitKind;

/// The exit status of how a command ended. Where something stopped it, its line is put.
pub fn report<E: Sink>(ended: Result<Done, Failure>, err: &mut E) -> u8
    ensures status { result ≡ status_of ended.entry }
    ensures line { PutsLine (sink E.Sink err.old) (sink E.Sink err.new) (line_of ended.entry) }
{
    match ended {
        Ok(Done::Completed) => 0,
        Ok(Done::RunFailed) => 7,
        Ok(Done::Negative) => 8,
        Ok(Done::FaultTold) => 1,
        Ok(Done::NoRoomTold) => 3,
        Err(failure) => {
            say_failure(err, &failure);
            failure_status(&failure)
        }
    }
}

/// The exit status of what stopped a command.
fn failure_status(failure: &Failure) -> u8
    ensures { result ≡ status_of (Err failure.now) }
{
    match failure {
        Failure::Refused { .. } | Failure::PastLimit { .. } => 1,
        Failure::Denied { .. } | Failure::NoRoom(_) => 3,
        Failure::Unread { .. } => 4,
        Failure::Unwritten { .. } | Failure::Unprinted => 5,
        Failure::NoMemory => 6,
    }
}

/// Puts the line on what stopped a command.
fn say_failure<E: Sink>(err: &mut E, failure: &Failure)
    ensures { PutsLine (sink E.Sink err.old) (sink E.Sink err.new) (line_of (Err failure.now)) }
{
    match failure {
        Failure::Refused { name, fault } => say_fault(err, name.as_bytes(), fault),
        Failure::PastLimit { which, count } => say_past_limit(err, *which, *count),
        Failure::Denied { text } => say_named(err, b"aces: deny: ", text.as_slice(), b"\n"),
        Failure::NoRoom(lack) => say_no_room(err, *lack),
        Failure::Unread { name } => {
            say_named(err, b"aces: cannot read ", name.as_bytes(), b"\n")
        }
        Failure::Unwritten { name } => {
            say_named(err, b"aces: cannot write ", name.as_bytes(), b"\n")
        }
        Failure::Unprinted => say(err, b"aces: cannot write output\n"),
        Failure::NoMemory => say_no_memory(err),
    }
}

/// Puts a piece. A fault of the sink changes nothing else.
pub fn say<E: Sink>(err: &mut E, piece: &[u8])
    ensures { PutsLine (sink E.Sink err.old) (sink E.Sink err.new) piece.now }
{
    let _ = err.put(piece);
}

/// Puts the line on want of memory.
fn say_no_memory<E: Sink>(err: &mut E)
    ensures { PutsLine (sink E.Sink err.old) (sink E.Sink err.new) lines.memory_line }
{
    say(err, b"aces: out of memory\n");
}

/// Puts a file's name between two texts.
fn say_named<E: Sink>(err: &mut E, before: &[u8], name: &[u8], after: &[u8])
    ensures { PutsLine (sink E.Sink err.old) (sink E.Sink err.new)
        (before.now ++ name.now ++ after.now) }
{
    say(err, before);
    say(err, name);
    say(err, after);
}

/// Puts the decimal digits of a number.
fn say_number<E: Sink>(err: &mut E, number: u64)
    ensures { PutsLine (sink E.Sink err.old) (sink E.Sink err.new) (decimal number) }
{
    if number >= 10 {
        say_number(err, number / 10);
    }
    say(err, &[b'0' + (number % 10) as u8]);
}

/// Puts a line on a file: its name, and a number between two texts behind it.
fn say_counted<E: Sink>(err: &mut E, name: &[u8], before: &[u8], number: u32, after: &[u8])
    ensures { PutsLine (sink E.Sink err.old) (sink E.Sink err.new)
        (lines.counted name.now before.now number after.now) }
{
    say_named(err, b"aces: ", name, before);
    say_number(err, u64::from(number));
    say(err, after);
}

/// Puts a line on a place in a file: its name, a line and a column of it, and a text behind them.
fn say_placed<E: Sink>(err: &mut E, name: &[u8], pos: Pos, text: &[u8])
    ensures { PutsLine (sink E.Sink err.old) (sink E.Sink err.new)
        (lines.placed name.now pos text.now) }
{
    say_counted(err, name, b":", pos.line, b":");
    say_number(err, u64::from(pos.col));
    say(err, text);
}

/// What passes a limit of texts.
pub fn limit_word(which: TextLimit) -> &'static [u8]
    ensures { result.now ≡ lines.limit_word which }
{
    match which {
        TextLimit::Name => b"name",
        TextLimit::Struct => b"struct",
        TextLimit::Field => b"field",
        TextLimit::Depth => b"depth",
        TextLimit::Array => b"array",
        TextLimit::Cell => b"cell",
        TextLimit::Periph => b"periph",
        TextLimit::Global => b"global",
        TextLimit::File => b"file",
        TextLimit::Function => b"function",
        TextLimit::Param => b"param",
        TextLimit::Register => b"register",
        TextLimit::Local => b"local",
        TextLimit::Block => b"block",
        TextLimit::Instruction => b"instruction",
    }
}

/// Puts the line on a limit that a text passes.
fn say_limit<E: Sink>(err: &mut E, name: &[u8], which: TextLimit, pos: Pos)
    ensures { PutsLine (sink E.Sink err.old) (sink E.Sink err.new)
        (lines.text_line name.now (TextFault.Limit which pos)) }
{
    say_placed(err, name, pos, b": limit ");
    say(err, limit_word(which));
    say(err, b"\n");
}

/// Puts two texts.
fn say_both<E: Sink>(err: &mut E, first: &[u8], second: &[u8])
    ensures { PutsLine (sink E.Sink err.old) (sink E.Sink err.new) (first.now ++ second.now) }
{
    say(err, first);
    say(err, second);
}

/// Puts which check of a firmware fails.
fn say_kind<E: Sink>(err: &mut E, kind: &CheckKind)
    ensures { PutsLine (sink E.Sink err.old) (sink E.Sink err.new) (lines.kind_text kind.now) }
{
    match kind {
        CheckKind::Unknown(name) => say_both(err, b"unknown ", name.as_slice()),
        CheckKind::Twice(name) => say_both(err, b"twice ", name.as_slice()),
        CheckKind::IllTyped => say(err, b"type"),
        CheckKind::NoMain => say(err, b"no main"),
        CheckKind::BadWindow => say(err, b"bad window"),
        CheckKind::WindowOverlap => say(err, b"windows overlap"),
        CheckKind::BadInit => say(err, b"bad init"),
        CheckKind::ObjectTooLarge => say(err, b"object too large"),
        CheckKind::FrameTooLarge { bytes } => say_frame(err, *bytes),
    }
}

/// Puts how many bytes a frame would have.
fn say_frame<E: Sink>(err: &mut E, bytes: u32)
    ensures { PutsLine (sink E.Sink err.old) (sink E.Sink err.new)
        (lines.kind_text (CheckKind.FrameTooLarge bytes)) }
{
    say(err, b"frame of ");
    say_number(err, u64::from(bytes));
    say(err, b" bytes");
}

/// Puts where a check of a firmware fails.
fn say_place<E: Sink>(err: &mut E, place: &CheckPlace)
    ensures { PutsLine (sink E.Sink err.old) (sink E.Sink err.new) (lines.place_text place.now) }
{
    match place {
        CheckPlace::Struct(name) => say_both(err, b"struct ", name.as_slice()),
        CheckPlace::Periph(name) => say_both(err, b"peripheral ", name.as_slice()),
        CheckPlace::Global(name) => say_both(err, b"global ", name.as_slice()),
        CheckPlace::File(name) => say_both(err, b"file ", name.as_slice()),
        CheckPlace::Func(name) => say_both(err, b"function ", name.as_slice()),
        CheckPlace::Inst { func, block, inst } => {
            say_instruction(err, func.as_slice(), block.as_slice(), *inst)
        }
        CheckPlace::Whole => say(err, b"firmware"),
    }
}

/// Puts the place of an instruction.
fn say_instruction<E: Sink>(err: &mut E, func: &[u8], block: &[u8], inst: u32)
    ensures { PutsLine (sink E.Sink err.old) (sink E.Sink err.new)
        (lines.place_text (CheckPlace.Inst func.now block.now inst)) }
{
    say_named(err, func, b" block ", block);
    say(err, b" instruction ");
    say_number(err, u64::from(inst));
}

/// Puts the line on a check of a firmware that fails.
fn say_failing<E: Sink>(err: &mut E, name: &[u8], kind: &CheckKind, place: &CheckPlace)
    ensures { PutsLine (sink E.Sink err.old) (sink E.Sink err.new)
        (lines.check_line name.now (CheckFault.At kind.now place.now)) }
{
    say_named(err, b"aces: ", name, b": ");
    say_kind(err, kind);
    say(err, b" in ");
    say_place(err, place);
    say(err, b"\n");
}

/// Puts a line on a key of a file: its name, and the key behind a text.
fn say_keyed<E: Sink>(err: &mut E, name: &[u8], text: &[u8], key: &[u8])
    ensures { PutsLine (sink E.Sink err.old) (sink E.Sink err.new)
        (lines.keyed name.now text.now key.now) }
{
    say_named(err, b"aces: ", name, text);
    say_both(err, key, b"\n");
}

/// The same of a key of a board.
fn say_key<E: Sink>(err: &mut E, name: &[u8], text: &[u8], key: Key)
    ensures { PutsLine (sink E.Sink err.old) (sink E.Sink err.new)
        (lines.keyed name.now text.now (path_of key)) }
{
    say_keyed(err, name, text, key.path().as_bytes());
}

/// The word of a limit of what is compiled: what a firmware that passes it has too much of.
pub fn compiled_word(which: LimitKind) -> &'static [u8]
    ensures { result.now ≡ lines.compiled_word which }
{
    match which {
        LimitKind::Compartments => b"compartments",
        LimitKind::Lent => b"lent",
        LimitKind::Sites => b"sites",
        LimitKind::Targets => b"targets",
    }
}

/// Puts the line on a limit of what is compiled.
fn say_past_limit<E: Sink>(err: &mut E, which: LimitKind, count: u32)
    ensures { PutsLine (sink E.Sink err.old) (sink E.Sink err.new) (lines.limit_line which count) }
{
    say(err, b"aces: limit ");
    say(err, compiled_word(which));
    say_count(err, count);
}

/// Puts how much there is of something, behind its word.
fn say_count<E: Sink>(err: &mut E, count: u32)
    ensures { PutsLine (sink E.Sink err.old) (sink E.Sink err.new) (lines.count_text count) }
{
    say(err, b" ");
    say_number(err, u64::from(count));
    say(err, b"\n");
}

/// The word of a memory.
pub fn memory_word(memory: Memory) -> &'static [u8]
    ensures { result.now ≡ lines.memory_word memory }
{
    match memory {
        Memory::Flash => b"flash",
        Memory::Ram => b"ram",
    }
}

/// Puts a compartment, or `-` where there is none.
fn say_compartment<E: Sink>(err: &mut E, compartment: Option<u32>)
    ensures { PutsLine (sink E.Sink err.old) (sink E.Sink err.new) (lines.compartment_word compartment) }
{
    match compartment {
        None => say(err, b"-"),
        Some(compartment) => say_number(err, u64::from(compartment)),
    }
}

/// Puts the line on a memory that has no room.
fn say_no_room<E: Sink>(err: &mut E, lack: Lack)
    ensures { PutsLine (sink E.Sink err.old) (sink E.Sink err.new) (lines.room_line lack) }
{
    say(err, b"aces: ");
    say(err, memory_word(lack.memory));
    say(err, b": compartment ");
    say_compartment(err, lack.compartment);
    say_bytes(err, lack.needed, lack.available);
}

/// Puts how many bytes are needed, and how many there are.
fn say_bytes<E: Sink>(err: &mut E, needed: u64, available: u64)
    ensures { PutsLine (sink E.Sink err.old) (sink E.Sink err.new) (lines.bytes_text needed available) }
{
    say(err, b": needs ");
    say_number(err, needed);
    say(err, b" of ");
    say_number(err, available);
    say(err, b" bytes\n");
}

/// Puts the line on a fault of an image.
fn say_image<E: Sink>(err: &mut E, name: &[u8], fault: ImageFault)
    ensures { PutsLine (sink E.Sink err.old) (sink E.Sink err.new) (lines.image_line name.now fault) }
{
    match fault {
        ImageFault::NoMemory => say_no_memory(err),
        ImageFault::Short { at } => say_counted(err, name, b": short at ", at, b"\n"),
        ImageFault::Magic => say_named(err, b"aces: ", name, b": bad magic\n"),
        ImageFault::Version { found } => say_counted(err, name, b": version ", found, b"\n"),
        ImageFault::Field { at } => say_counted(err, name, b": bad field at ", at, b"\n"),
        ImageFault::Trailing { at } => say_counted(err, name, b": trailing at ", at, b"\n"),
    }
}

/// Puts the line on a fault of a tape.
fn say_tape<E: Sink>(err: &mut E, name: &[u8], fault: &TapeFault)
    ensures { PutsLine (sink E.Sink err.old) (sink E.Sink err.new) (lines.tape_line name.now fault.now) }
{
    match fault {
        TapeFault::NoMemory => say_no_memory(err),
        TapeFault::BadLine { line } => say_counted(err, name, b":", *line, b": bad line\n"),
        TapeFault::UnknownPeripheral { line } => {
            say_counted(err, name, b":", *line, b": unknown peripheral\n")
        }
    }
}

/// Puts the line on a fault of the text of a firmware.
fn say_text<E: Sink>(err: &mut E, name: &[u8], fault: &TextFault)
    ensures { PutsLine (sink E.Sink err.old) (sink E.Sink err.new) (lines.text_line name.now fault.now) }
{
    match fault {
        TextFault::NoMemory => say_no_memory(err),
        TextFault::Utf8 { at } => say_counted(err, name, b": byte ", *at, b": not UTF-8\n"),
        TextFault::Syntax { pos } => say_placed(err, name, *pos, b": syntax\n"),
        TextFault::NumberTooWide { pos } => say_placed(err, name, *pos, b": number too wide\n"),
        TextFault::Limit { which, pos } => say_limit(err, name, *which, *pos),
    }
}

/// Puts the line on what the checks of a firmware tell.
fn say_check<E: Sink>(err: &mut E, name: &[u8], fault: &CheckFault)
    ensures { PutsLine (sink E.Sink err.old) (sink E.Sink err.new) (lines.check_line name.now fault.now) }
{
    match fault {
        CheckFault::NoMemory => say_no_memory(err),
        CheckFault::At { kind, place } => say_failing(err, name, kind, place),
    }
}

/// Puts the line on a fault of the text of a board.
fn say_board<E: Sink>(err: &mut E, name: &[u8], fault: &BoardFault)
    ensures { PutsLine (sink E.Sink err.old) (sink E.Sink err.new) (lines.board_line name.now fault.now) }
{
    match fault {
        BoardFault::NoMemory => say_no_memory(err),
        BoardFault::NotToml => say_named(err, b"aces: ", name, b": not TOML\n"),
        BoardFault::Missing(key) => say_key(err, name, b": missing ", *key),
        BoardFault::Kind(key) => say_key(err, name, b": kind ", *key),
        BoardFault::Range(key) => say_key(err, name, b": range ", *key),
        BoardFault::DeniedKind(path) => say_keyed(err, name, b": kind ", path.as_slice()),
        BoardFault::DeniedRange(path) => say_keyed(err, name, b": range ", path.as_slice()),
        BoardFault::Extra(path) => say_keyed(err, name, b": extra ", path.as_slice()),
    }
}

/// Puts the line on a fault in the content of a file.
fn say_fault<E: Sink>(err: &mut E, name: &[u8], fault: &Fault)
    ensures { PutsLine (sink E.Sink err.old) (sink E.Sink err.new)
        (lines.fault_line name.now fault.now) }
{
    match fault {
        Fault::TooLarge { limit } => say_counted(err, name, b": larger than ", *limit, b" bytes\n"),
        Fault::Image(fault) => say_image(err, name, *fault),
        Fault::Tape(fault) => say_tape(err, name, fault),
        Fault::Text(fault) => say_text(err, name, fault),
        Fault::Check(fault) => say_check(err, name, fault),
        Fault::Board(fault) => say_board(err, name, fault),
    }
}
