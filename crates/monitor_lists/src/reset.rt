//! Start-up: the test of the protection unit, initial words, the monitor's block, the regions of the compartment of `main`, and the
//! branch to it.

ghost use Rattle.std.specs.Prelude.{◌≡◌, OnOk, IfOk};
ghost use Rattle.monitor_steps.specs.Lists.{steps_of};
ghost use Rattle.monitor_program.specs.Reset as start;
ghost use Rattle.monitor_lists.specs.Made.{Appends, Ends, constants_of};

use crate::halts::HALT_UNIT;
use crate::opening::{set_control, tables_of};
use crate::values::{FAULTS_ON, INIT_SIZE, TRAPS_ON, UNIT_ON, UNPRIVILEGED};
use crate::{Numbers, StepList};
use machine_model::{CCR, SHCSR};
use machine_protection::{MPU_RBAR, MPU_TYPE};
use monitor_model::places::{
    CUR, DEPTH, INIT_AT, INIT_END, INIT_FROM, LOANS, MARK, REGION_RASR, REGION_RBAR, TOP,
};
use monitor_steps::{PrivilegedCond, PrivilegedOp};
use std::alloc::{AllocError, Global};

/// One word from flash, at r3, to RAM, at r2.
fn word_turn(alloc: Global) -> Result<StepList, AllocError>
    ensures { IfOk result (λ list. steps_of list.steps.items ≡ start.word_turn) }
{
    let mut list = StepList::new(alloc);
    list.load_word(6, 3, 0)?;
    list.store_word(6, 2, 0)?;
    list.constant(6, 4)?;
    list.alu(PrivilegedOp::Add, 2, 2, 6)?;
    list.alu(PrivilegedOp::Add, 3, 3, 6)?;
    Ok(list)
}

/// The words of one range, whose record is at r0.
fn init_turn(alloc: Global, c: &Numbers) -> Result<StepList, AllocError>
    ensures { IfOk result (λ list. steps_of list.steps.items ≡ start.init_turn (constants_of c.now)) }
{
    let turn = word_turn(alloc)?;
    let mut list = StepList::new(alloc);
    list.load_word(2, 0, INIT_AT)?;
    list.load_word(4, 0, INIT_END)?;
    list.load_word(3, 0, INIT_FROM)?;
    list.alu(PrivilegedOp::Sub, 4, 4, 2)?;
    list.constant(6, 2)?;
    list.alu(PrivilegedOp::Shr, 4, 4, 6)?;
    list.repeat(4, c.words, turn)?;
    list.constant(6, INIT_SIZE)?;
    list.alu(PrivilegedOp::Add, 0, 0, 6)?;
    Ok(list)
}

/// Where execution begins.
fn main_words(list: &mut StepList, c: &Numbers) -> Result<(), AllocError>
    ensures { OnOk result (Appends list.old list.new (start.main_words (constants_of c.now))) }
{
    list.constant(5, c.main_compartment)?;
    list.constant(7, c.main)?;
    Ok(())
}

/// The protection unit has as many regions as there are slots, and four more; else the machine halts with 10.
fn unit_is_there(list: &mut StepList, c: &Numbers) -> Result<(), AllocError>
    ensures { OnOk result (Appends list.old list.new (start.unit_is_there (constants_of c.now))) }
{
    list.constant(0, MPU_TYPE)?;
    list.load_word(6, 0, 0)?;
    list.constant(1, 256 * (c.slots as u32 + 4))?;
    list.must(PrivilegedCond::Eq, 6, 1, HALT_UNIT)?;
    Ok(())
}

/// The ranges that start-up fills.
fn copied(list: &mut StepList, c: &Numbers) -> Result<(), AllocError>
    ensures { OnOk result (Appends list.old list.new (start.copied (constants_of c.now))) }
{
    let turn = init_turn(list.allocator(), c)?;
    list.constant(0, c.inits_at)?;
    list.constant(1, c.inits)?;
    list.repeat(1, c.inits, turn)?;
    Ok(())
}

/// The monitor's block before the first call.
fn first_block(list: &mut StepList, c: &Numbers) -> Result<(), AllocError>
    ensures { OnOk result (Appends list.old list.new (start.first_block (constants_of c.now))) }
{
    list.constant(1, c.block)?;
    list.store_word(5, 1, CUR)?;
    list.constant(3, c.stack_end)?;
    list.store_word(3, 1, TOP)?;
    list.constant(6, 0)?;
    list.store_word(6, 1, DEPTH)?;
    list.store_word(6, 1, LOANS)?;
    list.store_word(6, 1, MARK)?;
    Ok(())
}

/// CCR.STKALIGN and CCR.UNALIGN_TRP.
fn traps(list: &mut StepList) -> Result<(), AllocError>
    ensures { OnOk result (Appends list.old list.new start.traps) }
{
    list.constant(0, CCR)?;
    list.constant(6, TRAPS_ON)?;
    list.store_word(6, 0, 0)?;
    Ok(())
}

/// Regions 0 and 1, and the entry of `main` into r4.
fn first_regions(list: &mut StepList, c: &Numbers) -> Result<(), AllocError>
    ensures { OnOk result (Appends list.old list.new (start.first_regions (constants_of c.now))) }
{
    list.copy(4, 7)?;
    list.constant(0, MPU_RBAR)?;
    list.constant(6, c.background.rbar)?;
    list.store_word(6, 0, REGION_RBAR)?;
    list.constant(6, c.background.rasr)?;
    list.store_word(6, 0, REGION_RASR)?;
    list.constant(6, c.tables.rbar)?;
    list.store_word(6, 0, REGION_RBAR)?;
    list.constant(6, c.tables.rasr)?;
    list.store_word(6, 0, REGION_RASR)?;
    Ok(())
}

/// SHCSR, the protection unit, PSP; CONTROL of a thread into r6, and the leave stub into r5.
fn thread_ready(list: &mut StepList, c: &Numbers) -> Result<(), AllocError>
    ensures { OnOk result (Appends list.old list.new (start.thread_ready (constants_of c.now))) }
{
    list.constant(0, SHCSR)?;
    list.constant(6, FAULTS_ON)?;
    list.store_word(6, 0, 0)?;
    set_control(list, 6, 7, UNIT_ON)?;
    list.write_psp(3)?;
    list.constant(6, UNPRIVILEGED)?;
    list.constant(5, c.stub_entry)?;
    Ok(())
}

/// CONTROL, and to `main`.
fn to_main(list: &mut StepList) -> Result<(), AllocError>
    ensures { OnOk result (Ends list.old list.new start.to_main) }
{
    list.write_control(6)?;
    list.go(4, 5)?;
    Ok(())
}

/// Start-up.
pub fn start_up(alloc: Global, c: &Numbers) -> Result<StepList, AllocError>
    ensures { IfOk result (λ list. steps_of list.steps.items ≡ start.reset (constants_of c.now)) }
{
    let mut list = StepList::new(alloc);
    main_words(&mut list, c)?;
    unit_is_there(&mut list, c)?;
    copied(&mut list, c)?;
    first_block(&mut list, c)?;
    traps(&mut list)?;
    first_regions(&mut list, c)?;
    tables_of(&mut list, c)?;
    thread_ready(&mut list, c)?;
    to_main(&mut list)?;
    Ok(list)
}
