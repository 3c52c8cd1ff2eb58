//! Loads, stores and fetches of a bus.

ghost use Rattle.std.specs.Prelude.{◌≡◌, IfOk, length};
ghost use Rattle.machine_devices.specs.Rules.{ObeysRules};

use crate::tapes::adc;
use base_lists::ListVec;
use machine_bus::answer::{Loaded, Stored};
use machine_bus::bus::{Bus, cut_to_width};
use machine_devices::image::Image;
use machine_devices::tape::Tape;
use machine_protection::region::Access;
use std::alloc::{AllocError, Global};
use std::process::Abort;
use std::test::Fail;

/// 64 bytes of flash at 0, 1 KiB of RAM, and the window ADC.
fn board(rt: &impl Abort, alloc: Global) -> Result<Image, AllocError>
    ensures rules { IfOk result ObeysRules }
    ensures windows { IfOk result (λ image. length image.windows ≡ 1) }
{
    let flash = vec![in alloc; 0x12u8; 64]?;
    let window = adc(rt, alloc)?;
    let mut windows = Vec::new(alloc);
    windows.push(window)?;
    Ok(Image {
        flash_base: 0,
        flash: ListVec::new(flash),
        ram_base: 0x2000_0000,
        ram_size: 1024,
        monitor: 0x2000_0000,
        stack_base: 0,
        stack_size: 0,
        regions: 8,
        closed: false,
        windows: ListVec::new(windows),
    })
}

/// The bus of the board, where RAM holds 0xAA and the window has two words.
fn small_bus(rt: &impl Abort, alloc: Global) -> Result<Bus, AllocError> {
    let image = board(rt, alloc)?;
    let mut tape = Tape::empty(alloc, 1)?;
    tape.push(0, 0x1234_5678)?;
    tape.push(0, 0x89ab_cdef)?;
    Bus::new(alloc, &image, tape, 0xaa)
}

/// A call of a bus, and what it is to answer.
enum Call {
    Load(u32, u8, Loaded),
    Store(u32, u8, Stored),
    Fetch(u32, Option<u16>),
    Word(u32, u32),
    Byte(u32, Option<u8>),
}

const VALUE: u32 = 0x1234_5678;

#[rattlefmt::skip]
const CALLS: &[Call] = &[
    Call::Load(0x2000_0000, 4, Loaded::Value(0xaaaa_aaaa)),
    Call::Load(0x2000_03fc, 4, Loaded::Value(0xaaaa_aaaa)),
    Call::Load(0x2000_0400, 4, Loaded::Unmapped),
    Call::Load(0x2000_0400, 1, Loaded::Unmapped),
    Call::Load(0x3c, 4, Loaded::Value(0x1212_1212)),
    Call::Load(0x3e, 2, Loaded::Value(0x1212)),
    Call::Load(0x40, 4, Loaded::Unmapped),
    Call::Load(0x4001_201c, 4, Loaded::Device { periph: 0, offset: 28, value: 0x1234_5678 }),
    Call::Load(0x4001_2001, 1, Loaded::Device { periph: 0, offset: 1, value: 0xef }),
    Call::Load(0x4001_201c, 4, Loaded::NoInput),
    Call::Load(0x4001_2020, 4, Loaded::Unmapped),
    Call::Store(0x2000_0004, 2, Stored::Done),
    Call::Store(0x2000_0009, 1, Stored::Done),
    Call::Store(0x2000_000c, 4, Stored::Done),
    Call::Store(0x2000_0400, 2, Stored::Unmapped),
    Call::Store(0, 2, Stored::Unmapped),
    Call::Store(0x4001_2002, 2, Stored::Device { periph: 0, offset: 2 }),
    Call::Word(0x2000_0004, 0xaaaa_5678),
    Call::Word(0x2000_0008, 0xaaaa_78aa),
    Call::Word(0x2000_000c, 0x1234_5678),
    Call::Word(0x4001_2000, 0),
    Call::Byte(0x2000_0005, Some(0x56)),
    Call::Byte(0x3f, Some(0x12)),
    Call::Byte(0x40, None),
    Call::Fetch(0x2000_0004, Some(0x5678)),
    Call::Fetch(0x3e, Some(0x1212)),
    Call::Fetch(0x40, None),
    Call::Fetch(0x4001_2000, None),
];

fn load(rt: &impl Abort, bus: &mut Bus, addr: u32, width: u8) -> Loaded {
    assert!(rt; width == 1 || width == 2 || width == 4);
    assert_eq!(rt; addr % u32::from(width), 0);
    bus.load(addr, width)
}

fn store(rt: &impl Abort, bus: &mut Bus, addr: u32, width: u8) -> Stored {
    assert!(rt; width == 1 || width == 2 || width == 4);
    assert_eq!(rt; addr % u32::from(width), 0);
    bus.store(addr, width, VALUE)
}

fn fetch(rt: &impl Abort, bus: &Bus, addr: u32) -> Option<u16> {
    assert_eq!(rt; addr % 2, 0);
    bus.fetch(addr)
}

fn word(rt: &impl Abort, bus: &Bus, addr: u32) -> u32 {
    assert_eq!(rt; addr % 4, 0);
    bus.word(addr)
}

fn check_call(rt: &impl Abort, bus: &mut Bus, call: &Call) {
    match call {
        Call::Load(addr, width, wanted) => {
            assert!(rt; load(rt, bus, *addr, *width) == *wanted, "at {addr:x}");
        }
        Call::Store(addr, width, wanted) => {
            assert!(rt; store(rt, bus, *addr, *width) == *wanted, "at {addr:x}");
        }
        Call::Fetch(addr, wanted) => assert_eq!(rt; fetch(rt, bus, *addr), *wanted, "at {addr:x}"),
        Call::Word(addr, wanted) => assert_eq!(rt; word(rt, bus, *addr), *wanted, "at {addr:x}"),
        Call::Byte(addr, wanted) => assert_eq!(rt; bus.byte(*addr), *wanted, "at {addr:x}"),
    }
}

#[test]
fn accesses_go_to_memories_and_windows(rt: HostRuntime) -> Result<(), Fail> {
    let mut bus = small_bus(&rt, rt.alloc())?;
    assert_eq!(rt; bus.compartment(), 0xaaaa_aaaa);
    for step in CALLS {
        check_call(&rt, &mut bus, step);
    }
    assert!(rt; bus.is_memory(Access::Read, 0));
    assert!(rt; !bus.is_memory(Access::Write, 0));
    assert_eq!(rt; bus.image().ram_size, 1024);
    assert_eq!(rt; cut_to_width(VALUE, 2), 0x5678);
    Ok(())
}
