//! How many steps the handler of SVC takes, from its first instruction through the exception return.

use crate::board::start;
use crate::loans::handle;
use machine_emulator::{Machine, Step};
use machine_model::state::End;
use std::alloc::Global;
use std::process::Abort;
use std::test::Fail;

/// A local of `main` is lent and taken back, the second compartment called, and where it has returned `main` ends.
#[rattlefmt::skip]
const CALLS: &[u32] = &[
    0xa802_b084, // SUB SP, #16; ADD r0, SP, #8
    0xdf02_2100, // MOVS r1, #0; SVC #2
    0xbf00_df03, // SVC #3; NOP
    0xbf00_bf00, // NOP; NOP
    0xdf00_bf00, // NOP; SVC #0
    0xdf01_0003, // site 3; SVC #1
];

/// BX lr
const RETURNS: &[u32] = &[0xbf00_4770];

/// The steps of lend, unlend, enter by a site of one target, and leave with 4 slots.
const STEPS: [u32; 4] = [109, 58, 230, 148];

/// Steps until a handler begins.
fn reach_handler(machine: &mut Machine) {
    for _step in 0..200 {
        if machine.privileged() {
            return;
        }
        if let Step::Ended(_) = machine.step() {
            return;
        }
    }
}

fn check_steps(rt: &impl Abort, alloc: Global, closed: bool) -> Result<(), Fail> {
    let mut machine = start(alloc, closed, CALLS, RETURNS)?;
    let start_up = handle(&mut machine);
    assert!(rt; start_up < 400);
    for steps in STEPS {
        reach_handler(&mut machine);
        assert_eq!(rt; handle(&mut machine), steps);
    }
    let end = machine.run(200, &mut |_| true);
    assert!(rt; end == End::Halt(0));
    Ok(())
}

#[test]
fn handlers_take_their_steps(rt: HostRuntime) -> Result<(), Fail> {
    check_steps(&rt, rt.alloc(), false)?;
    check_steps(&rt, rt.alloc(), true)
}
