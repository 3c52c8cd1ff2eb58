//! Runs of a small machine, whose program stands in flash, or is copied to RAM and fetched there. Addresses and results were worked
//! out by hand from the manual.

ghost use Rattle.std.specs.Prelude.{◌≡◌, IfOk, length};
ghost use Rattle.machine_devices.specs.Rules.{ObeysRules, IsWindow};

use base_events::event::Event;
use base_lists::ListVec;
use base_names::is_name;
use base_words::memory::write_words;
use machine_devices::image::{Image, Window};
use machine_devices::tape::Tape;
use machine_emulator::{Machine, Step};
use machine_model::state::End;
use std::alloc::{AllocError, Global};
use std::process::Abort;
use std::test::Fail;

/// The window PORT of 32 bytes at 0x40000000.
fn port(rt: &impl Abort, alloc: Global) -> Result<Window, AllocError>
    ensures { IfOk result IsWindow }
{
    let name = Vec::from_slice(alloc, b"PORT")?;
    assert!(rt; is_name(&name));
    Ok(Window {
        name: ListVec::new(name),
        base: 0x4000_0000,
        size: 32,
    })
}

/// Where the program stands in flash.
const PROGRAM: u32 = 0x80;

/// A way to run the program.
struct Way {
    /// Where the run begins.
    entry: u32,
    /// How many steps come before the program's first.
    before: u64,
    /// Where the program that is run stands.
    program: u32,
}

/// From flash, and from RAM by way of the code that copies it there.
const WAYS: [Way; 2] = [
    Way {
        entry: PROGRAM,
        before: 0,
        program: PROGRAM,
    },
    Way {
        entry: 0x40,
        before: 37,
        program: 0x2000_0000,
    },
];

/// 192 bytes of flash at 0, 1 KiB of RAM and one window. The main stack begins behind RAM. At 0x40 stands code that copies the program
/// to the beginning of RAM and goes there.
fn board(rt: &impl Abort, alloc: Global, entry: u32) -> Result<Image, AllocError>
    ensures rules { IfOk result ObeysRules }
    ensures windows { IfOk result (λ image. length image.windows ≡ 1) }
{
    let mut flash = vec![in alloc; 0u8; 192]?;
    write_words(flash.as_mut_slice(), 0, &[0x2000_0400, entry | 1]);
    write_words(
        flash.as_mut_slice(),
        0x40,
        &[
            0x2601_2580, // MOVS r5, #0x80; MOVS r6, #1
            0x682F_0776, // LSLS r6, r6, #29; at 0x46: LDR r7, [r5]
            0x3504_6037, // STR r7, [r6]; ADDS r5, #4
            0x2D94_3604, // ADDS r6, #4; CMP r5, #0x94
            0x2601_D1F9, // BNE 0x46; MOVS r6, #1
            0x3601_0776, // LSLS r6, r6, #29; ADDS r6, #1
            0x0000_4730, // BX r6
        ],
    );
    write_words(
        flash.as_mut_slice(),
        PROGRAM as usize,
        &[
            0x2107_2005, // MOVS r0, #5; MOVS r1, #7
            0x4348_1842, // ADDS r2, r0, r1; MULS r0, r1
            0x2301_B405, // PUSH {r0, r2}; MOVS r3, #1
            0x605A_079B, // LSLS r3, r3, #30; STR r2, [r3, #4]
            0xBE09_681C, // LDR r4, [r3]; BKPT 9
        ],
    );
    let mut windows = Vec::new(alloc);
    windows.push(port(rt, alloc)?)?;
    Ok(Image {
        flash_base: 0,
        flash: ListVec::new(flash),
        ram_base: 0x2000_0000,
        ram_size: 1024,
        monitor: 0,
        stack_base: 0,
        stack_size: 0,
        regions: 8,
        closed: false,
        windows: ListVec::new(windows),
    })
}

/// The machine before the program's first step.
fn start(rt: &impl Abort, alloc: Global, way: &Way) -> Result<Machine, AllocError> {
    let image = board(rt, alloc, way.entry)?;
    let mut tape = Tape::empty(alloc, 1)?;
    tape.push(0, 0x1234_5678)?;
    let mut machine = Machine::start(alloc, &image, tape, 0xAA)?;
    assert!(rt; machine.run(way.before, &mut |_: &Event| false) == End::Limit);
    assert_eq!(rt; machine.reg(15), way.program);
    Ok(machine)
}

const STORED: Event = Event {
    compartment: 0,
    periph: 0,
    offset: 4,
    width: 4,
    write: true,
    value: 12,
};

const LOADED: Event = Event {
    compartment: 0,
    periph: 0,
    offset: 0,
    width: 4,
    write: false,
    value: 0x1234_5678,
};

fn runs_to_its_end(rt: &impl Abort, machine: &mut Machine, way: &Way) {
    assert!(rt; machine.step() == Step::Ran);
    let mut first = None;
    let mut second = None;
    let end = machine.run(
        100,
        &mut |event: &Event| {
            if first.is_none() {
                first = Some(*event);
            } else {
                second = Some(*event);
            }
            true
        },
    );
    assert!(rt; end == End::Halt(9));
    assert!(rt; first == Some(STORED));
    assert!(rt; second == Some(LOADED));
    assert!(rt; machine.step() == Step::Ended(End::Halt(9)));
    let registers = [
        (0, 35),
        (2, 12),
        (4, 0x1234_5678),
        (13, 0x2000_03F8),
        (15, way.program.wrapping_add(0x12)),
    ];
    for (k, value) in registers {
        assert!(rt; k < 16);
        assert_eq!(rt; machine.reg(k), value, "r{k}");
    }
    assert_eq!(rt; machine.byte(0x2000_03F8), Some(35));
    assert_eq!(rt; machine.byte(0x2000_03F7), Some(0xAA));
    assert!(rt; machine.privileged());
    assert_eq!(rt; machine.mpu().read(0xE000_ED94), Some(0));
}

fn stops_where_told(rt: &impl Abort, machine: &mut Machine, way: &Way) {
    assert!(rt; machine.run(7, &mut |_: &Event| false) == End::Limit);
    assert_eq!(rt; machine.reg(15), way.program.wrapping_add(0xE));
    assert!(rt; machine.run(2, &mut |_: &Event| false) == End::Refused);
    assert_eq!(rt; machine.reg(15), way.program.wrapping_add(0x10));
    assert!(rt; machine.step() == Step::Event(LOADED));
}

#[test]
fn runs_from_flash_and_from_ram(rt: HostRuntime) -> Result<(), Fail> {
    for way in &WAYS {
        runs_to_its_end(&rt, &mut start(&rt, rt.alloc(), way)?, way);
        stops_where_told(&rt, &mut start(&rt, rt.alloc(), way)?, way);
    }
    Ok(())
}
