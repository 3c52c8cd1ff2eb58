//! Tapes: texts that are read and refused, and words that are put and taken.

ghost use Rattle.std.specs.Prelude.{IfOk};
ghost use Rattle.machine_devices.specs.Rules.{IsWindow};

use base_lists::ListVec;
use base_names::is_name;
use machine_devices::image::Window;
use machine_devices::tape::{Tape, TapeFault};
use std::alloc::{AllocError, Global};
use std::process::Abort;
use std::test::Fail;

/// The window ADC of 32 bytes at 0x40012000.
pub(crate) fn adc(rt: &impl Abort, alloc: Global) -> Result<Window, AllocError>
    ensures { IfOk result IsWindow }
{
    let name = Vec::from_slice(alloc, b"ADC")?;
    assert!(rt; is_name(&name));
    Ok(Window {
        name: ListVec::new(name),
        base: 0x4001_2000,
        size: 32,
    })
}

fn take(tape: &mut Tape) -> Option<u32> {
    if tape.queue_count() == 1 {
        tape.take(0)
    } else {
        None
    }
}

/// Texts, and the words of ADC.
const READ: &[(&[u8], &[u32])] = &[
    (b"", &[]),
    (b"ADC 10\nADC 40\nADC 33", &[10, 40, 33]),
    (b"ADC 10\r\nADC 40\r\n", &[10, 40]),
    (b"\n \t \r\n# no word\nADC 1\n\n", &[1]),
    (b"\tADC\t 0x1f \r\n", &[31]),
    (b"ADC 7#x\nADC 8 # 9\r\n", &[7, 8]),
    (b"ADC -1\nADC -0x80000000", &[0xffff_ffff, 0x8000_0000]),
    (b"ADC 00012", &[12]),
    (b"#\xff\xc3\nADC 5", &[5]),
];

fn check_words(
    rt: &impl Abort,
    alloc: Global,
    names: &[Window],
    text: &[u8],
    words: &[u32],
) -> Result<(), Fail> {
    assert!(rt; text.len() < 100);
    let mut tape = Tape::read(alloc, text, names)?;
    for word in words {
        assert_eq!(rt; take(&mut tape), Some(*word), "in {text:?}");
    }
    assert_eq!(rt; take(&mut tape), None, "in {text:?}");
    Ok(())
}

#[test]
fn reads_tapes(rt: HostRuntime) -> Result<(), Fail> {
    let names = vec![in rt.alloc(); adc(&rt, rt.alloc())?]?;
    for (text, words) in READ {
        check_words(&rt, rt.alloc(), &names, text, words)?;
    }
    Ok(())
}

/// A name of 64 bytes and one of 65.
const LONGEST: &[u8] = b"aaaaaaaaaaaaaaaaaaaaaaaaaaaaaaaaaaaaaaaaaaaaaaaaaaaaaaaaaaaaaaaa 1";

const LONGER: &[u8] = b"aaaaaaaaaaaaaaaaaaaaaaaaaaaaaaaaaaaaaaaaaaaaaaaaaaaaaaaaaaaaaaaaa 1";

/// Texts, and the first line that is refused.
const REFUSED: &[(&[u8], TapeFault)] = &[
    (b"ADC zz", TapeFault::BadLine { line: 1 }),
    (b"XYZ 1", TapeFault::UnknownPeripheral { line: 1 }),
    (b"XYZ zz", TapeFault::BadLine { line: 1 }),
    (b"XYZ 1\nADC zz", TapeFault::UnknownPeripheral { line: 1 }),
    (b"ADC 1\n\n# c\nADC\n", TapeFault::BadLine { line: 4 }),
    (b"ADC 1 2", TapeFault::BadLine { line: 1 }),
    (b"10", TapeFault::BadLine { line: 1 }),
    (b"ADC#1", TapeFault::BadLine { line: 1 }),
    (b"ADC 4294967296", TapeFault::BadLine { line: 1 }),
    (b"ADC - 1", TapeFault::BadLine { line: 1 }),
    (b"A-C 1", TapeFault::BadLine { line: 1 }),
    (b"ADC 1\r", TapeFault::BadLine { line: 1 }),
    (b"ADC 1\r\r\n", TapeFault::BadLine { line: 1 }),
    (b"ADC 1\n# a\rb\n", TapeFault::BadLine { line: 2 }),
    (LONGER, TapeFault::BadLine { line: 1 }),
    (LONGEST, TapeFault::UnknownPeripheral { line: 1 }),
];

fn check_fault(rt: &impl Abort, alloc: Global, names: &[Window], text: &[u8], fault: &TapeFault) {
    assert!(rt; text.len() < 100);
    match Tape::read(alloc, text, names) {
        Ok(_) => assert!(rt; false, "no fault in {text:?}"),
        Err(found) => assert!(rt; found == *fault, "in {text:?}"),
    }
}

#[test]
fn refuses_tapes(rt: HostRuntime) -> Result<(), Fail> {
    let names = vec![in rt.alloc(); adc(&rt, rt.alloc())?]?;
    for (text, fault) in REFUSED {
        check_fault(&rt, rt.alloc(), &names, text, fault);
    }
    Ok(())
}

/// A call on a tape of two queues.
enum Call {
    Push(u32, u32),
    Take(u32, Option<u32>),
}

const CALLS: &[Call] = &[
    Call::Take(0, None),
    Call::Push(1, 7),
    Call::Push(1, 8),
    Call::Push(0, 9),
    Call::Take(1, Some(7)),
    Call::Take(0, Some(9)),
    Call::Take(0, None),
    Call::Push(1, 0xffff_ffff),
    Call::Take(1, Some(8)),
    Call::Take(1, Some(0xffff_ffff)),
    Call::Take(1, None),
];

fn check_call(rt: &impl Abort, tape: &mut Tape, call: &Call) -> Result<(), AllocError> {
    assert_eq!(rt; tape.queue_count(), 2);
    match call {
        Call::Push(queue, word) => {
            assert!(rt; *queue < 2);
            tape.push(*queue, *word)?;
        }
        Call::Take(queue, word) => {
            assert!(rt; *queue < 2);
            assert_eq!(rt; tape.take(*queue), *word);
        }
    }
    Ok(())
}

#[test]
fn words_are_taken_in_order(rt: HostRuntime) -> Result<(), Fail> {
    assert_eq!(rt; Tape::empty(rt.alloc(), 0)?.queue_count(), 0);
    let mut tape = Tape::empty(rt.alloc(), 2)?;
    for step in CALLS {
        check_call(&rt, &mut tape, step)?;
    }
    Ok(())
}
