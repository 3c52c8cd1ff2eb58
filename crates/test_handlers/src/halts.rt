//! Each halt of the handlers, once. Blocks and frames were worked out by hand.

use crate::board::{MONITOR, start, word};
use base_events::event::Event;
use machine_emulator::Machine;
use machine_model::state::End;
use std::alloc::Global;
use std::process::Abort;
use std::test::Fail;

/// A program of `main`, by its words behind the beginning that all have in common, and what it comes to.
struct Case {
    /// The number of the halt.
    halt: u8,
    /// Whether the board is closed.
    closed: bool,
    code: &'static [u32],
    /// CUR, TOP, DEPTH, LOANS and MARK.
    block: [u32; 5],
    /// The last exception's frame: where it stands, and its words.
    psp: u32,
    frame: [u32; 8],
}

const MAIN_RUNS: [u32; 5] = [0, 0x2000_0800, 0, 0, 0];

const LENT_ONCE: [u32; 5] = [0, 0x2000_0800, 0, 1, 0];

const ENTRY: u32 = 0x0800_2081;

#[rattlefmt::skip]
const CASES: &[Case] = &[
    // SVC #1 with no entry saved
    Case { halt: 0, closed: false, code: &[0xbf00_df01], block: MAIN_RUNS, psp: 0x2000_07e0,
        frame: [10, 11, 12, 13, ENTRY, 13, 0x0800_2016, 0x8100_0000] },
    // SVC #4
    Case { halt: 1, closed: false, code: &[0xbf00_df04], block: MAIN_RUNS, psp: 0x2000_07e0,
        frame: [10, 11, 12, 13, ENTRY, 13, 0x0800_2016, 0x8100_0000] },
    // SVC #0 with site 7
    Case { halt: 2, closed: false, code: &[0x0007_df00], block: MAIN_RUNS, psp: 0x2000_07e0,
        frame: [10, 11, 12, 13, ENTRY, 13, 0x0800_2016, 0x8100_0000] },
    // NOP, NOP, and SVC #0 with site 1, which calls the third compartment alone
    Case { halt: 3, closed: false, code: &[0xbf00_bf00, 0x0001_df00], block: MAIN_RUNS, psp: 0x2000_07e0,
        frame: [10, 11, 12, 13, ENTRY, 13, 0x0800_201a, 0x8100_0000] },
    // SUB SP, #4: the frame has a pad
    Case { halt: 4, closed: false, code: &[0xdf04_b081], block: MAIN_RUNS, psp: 0x2000_07d8,
        frame: [10, 11, 12, 13, ENTRY, 13, 0x0800_2018, 0x8100_0200] },
    // SUB SP by 1,792, so that the frame lies in the lowest eighth of the stack; SVC #0 with site 2
    Case { halt: 5, closed: false, code: &[0xb0ff_b0ff, 0xb0c3_b0ff, 0x0002_df00], block: MAIN_RUNS, psp: 0x2000_00e0,
        frame: [10, 11, 12, 13, ENTRY, 13, 0x0800_201e, 0x8100_0000] },
    // SUB SP, #16; ADD r0, SP, #8; MOVS r1, #0; SVC #2; MOVS r1, #1; SVC #2: there is no lendable local 1
    Case { halt: 6, closed: false, code: &[0xa802_b084, 0xdf02_2100, 0xdf02_2101], block: LENT_ONCE, psp: 0x2000_07d0,
        frame: [0x2000_07f8, 1, 12, 13, ENTRY, 13, 0x0800_2020, 0x0100_0000] },
    // MOVS r1, #16; STR r0, [r1, #0]
    Case { halt: 7, closed: false, code: &[0x6008_2110], block: MAIN_RUNS, psp: 0x2000_07e0,
        frame: [10, 16, 12, 13, ENTRY, 13, 0x0800_2016, 0x0100_0000] },
    // MOVS r1, #16; STR r0, [r1, #4]
    Case { halt: 8, closed: false, code: &[0x6048_2110], block: MAIN_RUNS, psp: 0x2000_07e0,
        frame: [10, 16, 12, 13, ENTRY, 13, 0x0800_2016, 0x0100_0000] },
    // MOVW r1, #0x0800; MOVT r1, #0x2000; LDR r0, [r1, #0]
    Case { halt: 9, closed: true, code: &[0x0100_f640, 0x0100_f2c2, 0xbf00_6808], block: MAIN_RUNS, psp: 0x2000_07e0,
        frame: [10, MONITOR, 12, 13, ENTRY, 13, 0x0800_201c, 0x8100_0000] },
];

/// Checks the words of RAM from an address on.
fn check_words(rt: &impl Abort, machine: &Machine, from: u32, words: &[u32], halt: u8) {
    let mut address = from;
    for expected in words {
        assert_eq!(rt;
            word(machine, address),
            Some(*expected),
            "halt {halt} at {address:x}"
        );
        address = address.wrapping_add(4);
    }
}

fn check_case(rt: &impl Abort, alloc: Global, case: &Case) -> Result<(), Fail> {
    assert!(rt; case.code.len() <= 16);
    let mut machine = start(alloc, case.closed, case.code, &[])?;
    let end = machine.run(2000, &mut |_: &Event| true);
    assert!(rt; end == End::Halt(case.halt));
    assert!(rt; machine.privileged());
    check_words(rt, &machine, MONITOR, &case.block, case.halt);
    check_words(rt, &machine, case.psp, &case.frame, case.halt);
    Ok(())
}

#[test]
fn handlers_halt(rt: HostRuntime) -> Result<(), Fail> {
    for case in CASES {
        check_case(&rt, rt.alloc(), case)?;
    }
    Ok(())
}
