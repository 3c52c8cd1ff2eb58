//! An access by a loan, with all 32 loans live: what it leaves, and how many steps it takes.

use crate::board::{MONITOR, start, word};
use machine_emulator::{Machine, Step};
use machine_model::state::End;
use std::alloc::Global;
use std::process::Abort;
use std::test::Fail;

/// A local word of `main` is lent 32 times, and the second compartment called with its address in r1 and 0x37 in r0.
#[rattlefmt::skip]
const LENDS_ONE: &[u32] = &[
    0xa802_b084, // SUB SP, #16; ADD r0, SP, #8
    0x2320_2100, // MOVS r1, #0; MOVS r3, #32
    0x3b01_df02, // SVC #2; SUBS r3, #1
    0x4601_d1fc, // BNE back to SVC; MOV r1, r0
    0xdf00_2037, // MOVS r0, #0x37; SVC #0
    0xbf00_0003, // site 3
];

/// Each of 32 words is lent, and the second compartment called with the address of the last.
#[rattlefmt::skip]
const LENDS_EACH: &[u32] = &[
    0xa800_b0a2, // SUB SP, #136; ADD r0, SP, #0
    0x2320_2100, // MOVS r1, #0; MOVS r3, #32
    0x3004_df02, // SVC #2; ADDS r0, #4
    0xd1fb_3b01, // SUBS r3, #1; BNE back to SVC
    0x4601_3804, // SUBS r0, #4; MOV r1, r0
    0xdf00_2037, // MOVS r0, #0x37; SVC #0
    0xbf00_0004, // site 4
];

/// What the second compartment does with the word at an address; then it executes SVC #4.
struct Access {
    closed: bool,
    main: &'static [u32],
    address: u32,
    second: u32,
    /// r0 of the last frame, and the word behind the access.
    result: u32,
    word: u32,
    /// The steps of the handler of MemManage.
    steps: u32,
}

const LAST: u32 = 0x2000_07f4;

const ONE: u32 = 0x2000_07f8;

#[rattlefmt::skip]
const ACCESSES: &[Access] = &[
    // STR, STRB and STRH r0, [r1, #0]
    Access { closed: false, main: LENDS_EACH, address: LAST, second: 0xdf04_6008, result: 0x37, word: 0x37, steps: 606 },
    Access { closed: false, main: LENDS_EACH, address: LAST, second: 0xdf04_7008, result: 0x37, word: 0x37, steps: 616 },
    Access { closed: false, main: LENDS_EACH, address: LAST, second: 0xdf04_8008, result: 0x37, word: 0x37, steps: 621 },
    Access { closed: false, main: LENDS_ONE, address: ONE, second: 0xdf04_6008, result: 0x37, word: 0x37, steps: 1067 },
    Access { closed: true, main: LENDS_EACH, address: LAST, second: 0xdf04_6008, result: 0x37, word: 0x37, steps: 606 },
    // LDR, LDRB and LDRH r0, [r1, #0]
    Access { closed: true, main: LENDS_EACH, address: LAST, second: 0xdf04_6808, result: 0, word: 0, steps: 621 },
    Access { closed: true, main: LENDS_EACH, address: LAST, second: 0xdf04_7808, result: 0, word: 0, steps: 631 },
    Access { closed: true, main: LENDS_EACH, address: LAST, second: 0xdf04_8808, result: 0, word: 0, steps: 636 },
    Access { closed: true, main: LENDS_ONE, address: ONE, second: 0xdf04_8808, result: 0, word: 0, steps: 1097 },
];

/// The address of the access.
const SECOND: u32 = 0x0800_2080;

/// Steps until the second compartment begins.
fn reach(machine: &mut Machine) -> bool {
    for _step in 0..20000 {
        if !machine.privileged() && machine.reg(15) == SECOND {
            return true;
        }
        if let Step::Ended(_) = machine.step() {
            return false;
        }
    }
    false
}

/// The steps of a handler, up to the thread or the end.
pub(crate) fn handle(machine: &mut Machine) -> u32 {
    for count in 0..20000 {
        if !machine.privileged() {
            return count;
        }
        if let Step::Ended(_) = machine.step() {
            return count;
        }
    }
    20000
}

fn check_access(rt: &impl Abort, alloc: Global, access: &Access) -> Result<(), Fail> {
    assert!(rt; access.main.len() <= 16);
    let mut machine = start(alloc, access.closed, access.main, &[access.second])?;
    assert!(rt; reach(&mut machine));
    assert!(rt; machine.step() == Step::Ran);
    assert_eq!(rt;
        handle(&mut machine),
        access.steps,
        "code {:x}",
        access.second
    );

    assert_eq!(rt; word(&machine, access.address), Some(access.word));
    assert_eq!(rt; machine.reg(0), access.result);
    assert_eq!(rt; machine.reg(15), 0x0800_2082);
    let end = machine.run(200, &mut |_| true);
    assert!(rt; end == End::Halt(1));
    let block = [1, 0x2000_0700, 1, 32, 32];
    let mut address = MONITOR;
    for expected in block {
        assert_eq!(rt; word(&machine, address), Some(expected), "at {address:x}");
        address = address.wrapping_add(4);
    }
    Ok(())
}

#[test]
fn accesses_by_loans_are_made(rt: HostRuntime) -> Result<(), Fail> {
    for access in ACCESSES {
        check_access(&rt, rt.alloc(), access)?;
    }
    Ok(())
}
