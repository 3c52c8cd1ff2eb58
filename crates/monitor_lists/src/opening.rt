//! What both handlers begin and end with, and the writing of a compartment's regions.

ghost use Rattle.std.specs.Prelude.{◌+◌, ◌*◌, ◌<◌, [], ◌∷◌, OnOk};
ghost use Rattle.monitor_program.specs.Opening as opening;
ghost use Rattle.monitor_lists.specs.Made.{Appends, Ends, constants_of};

use crate::halts::HALT_STACK;
use crate::list::StepList;
use crate::numbers::Numbers;
use crate::values::{ALL_EIGHTHS, FRAME_SIZE, PADDED, SRD_SHIFT, UNIT_OFF, UNIT_ON};
use machine_protection::{MPU_CTRL, MPU_RBAR};
use monitor_model::places::{FRAME_XPSR, RECORD_CODE, RECORD_SLOTS, REGION_RASR, REGION_RBAR, TOP};
use monitor_steps::{PrivilegedCond, PrivilegedOp};
use std::alloc::AllocError;

/// A value to MPU_CTRL, by two registers.
pub fn set_control(
    list: &mut StepList,
    address: u8,
    register: u8,
    value: u32,
) -> Result<(), AllocError>
    ensures { OnOk result (Appends list.old list.new (opening.set_control address register value)) }
{
    list.constant(address, MPU_CTRL)?;
    list.constant(register, value)?;
    list.store_word(register, address, 0)?;
    Ok(())
}

/// PSP lies in the stack, and the frame below TOP; else the machine halts with 4.
fn stack_tests(list: &mut StepList, c: &Numbers) -> Result<(), AllocError>
    ensures { OnOk result (Appends list.old list.new (opening.stack_tests (constants_of c.now))) }
{
    list.read_psp(0)?;
    list.constant(1, c.block)?;
    list.constant(2, c.stack)?;
    list.must(PrivilegedCond::Ule, 2, 0, HALT_STACK)?;
    list.load_word(3, 1, TOP)?;
    list.must(PrivilegedCond::Ule, 0, 3, HALT_STACK)?;
    list.alu(PrivilegedOp::Sub, 4, 3, 0)?;
    list.constant(5, FRAME_SIZE)?;
    list.must(PrivilegedCond::Ule, 5, 4, HALT_STACK)?;
    Ok(())
}

/// The frame's xPSR has bit 9 clear; else the machine halts with 4.
fn status_test(list: &mut StepList) -> Result<(), AllocError>
    ensures { OnOk result (Appends list.old list.new opening.status_test) }
{
    list.load_word(4, 0, FRAME_XPSR)?;
    list.constant(5, PADDED)?;
    list.alu(PrivilegedOp::And, 4, 4, 5)?;
    list.constant(5, 0)?;
    list.must(PrivilegedCond::Eq, 4, 5, HALT_STACK)?;
    Ok(())
}

/// The beginning of both handlers: the protection unit is off, and the three tests of the stack.
pub fn open_handler(list: &mut StepList, c: &Numbers) -> Result<(), AllocError>
    ensures { OnOk result (Appends list.old list.new (opening.opened (constants_of c.now))) }
{
    set_control(list, 6, 7, UNIT_OFF)?;
    stack_tests(list, c)?;
    status_test(list)?;
    Ok(())
}

/// The end of both handlers: the protection unit is on, and the exception return.
pub fn close_handler(list: &mut StepList) -> Result<(), AllocError>
    ensures { OnOk result (Ends list.old list.new opening.closed_up) }
{
    set_control(list, 6, 7, UNIT_ON)?;
    list.exception_return()?;
    Ok(())
}

/// A register is doubled, and where a bit is set another one is added to it.
fn doubled(list: &mut StepList, to: u8, from: u8, bit: bool) -> Result<(), AllocError>
    ensures { OnOk result (Appends list.old list.new (opening.times to from (bit ∷ []))) }
{
    list.alu(PrivilegedOp::Add, to, to, to)?;
    if bit {
        list.alu(PrivilegedOp::Add, to, to, from)?;
    }
    Ok(())
}

/// A register, which is 0, becomes another one times a number below 16.
fn times(list: &mut StepList, to: u8, from: u8, number: u8) -> Result<(), AllocError>
    ensures { OnOk result (Appends list.old list.new (opening.times to from (opening.bits_of 4 number))) }
{
    doubled(list, to, from, number / 8 % 2 == 1)?;
    doubled(list, to, from, number / 4 % 2 == 1)?;
    doubled(list, to, from, number / 2 % 2 == 1)?;
    doubled(list, to, from, number % 2 == 1)?;
    Ok(())
}

/// The address of the record of compartment r5 into r6, by r7.
pub fn record_of(list: &mut StepList, c: &Numbers) -> Result<(), AllocError>
    ensures { OnOk result (Appends list.old list.new (opening.record_of (constants_of c.now))) }
{
    list.constant(6, 0)?;
    times(list, 6, 5, c.slots + 2)?;
    list.constant(7, 3)?;
    list.alu(PrivilegedOp::Shl, 6, 6, 7)?;
    list.constant(7, c.compartments_at)?;
    list.alu(PrivilegedOp::Add, 6, 6, 7)?;
    Ok(())
}

/// One region, whose words stand from a word of the record at r6 on, by r7.
fn region(list: &mut StepList, from: u8) -> Result<(), AllocError>
    requires { from < 31 }
    ensures { OnOk result (Appends list.old list.new (opening.region from)) }
{
    list.load_word(7, 6, from)?;
    list.store_word(7, 0, REGION_RBAR)?;
    list.load_word(7, 6, from + REGION_RASR)?;
    list.store_word(7, 0, REGION_RASR)?;
    Ok(())
}

/// A number of regions, whose words stand from a word of the record at r6 on, by r7.
fn regions(list: &mut StepList, count: u8, from: u8) -> Result<(), AllocError>
    requires { from + 2 * count < 32 }
    ensures { OnOk result (Appends list.old list.new (opening.regions count from)) }
{
    for i in 0..count {
        region(list, from + 2 * i)?;
    }
    Ok(())
}

/// SRD of region 3 for TOP in r3 into r2, by r7.
fn closed_eighths(list: &mut StepList, c: &Numbers) -> Result<(), AllocError>
    ensures { OnOk result (Appends list.old list.new (opening.closed_eighths (constants_of c.now))) }
{
    list.constant(2, c.stack)?;
    list.alu(PrivilegedOp::Sub, 7, 3, 2)?;
    list.constant(2, c.eighth)?;
    list.alu(PrivilegedOp::Shr, 7, 7, 2)?;
    list.constant(2, ALL_EIGHTHS)?;
    list.alu(PrivilegedOp::Shl, 2, 2, 7)?;
    list.constant(7, ALL_EIGHTHS)?;
    list.alu(PrivilegedOp::And, 2, 2, 7)?;
    Ok(())
}

/// Region 3 for TOP in r3, by r2 and r7.
fn stack_region(list: &mut StepList, c: &Numbers) -> Result<(), AllocError>
    ensures { OnOk result (Appends list.old list.new (opening.stack_region (constants_of c.now))) }
{
    closed_eighths(list, c)?;
    list.constant(7, SRD_SHIFT)?;
    list.alu(PrivilegedOp::Shl, 2, 2, 7)?;
    list.constant(7, c.stack_region.rasr)?;
    list.alu(PrivilegedOp::Add, 2, 2, 7)?;
    list.constant(7, c.stack_region.rbar)?;
    list.store_word(7, 0, REGION_RBAR)?;
    list.store_word(2, 0, REGION_RASR)?;
    Ok(())
}

/// Regions 2, 3 and the slots of compartment r5, with TOP in r3.
pub fn tables_of(list: &mut StepList, c: &Numbers) -> Result<(), AllocError>
    ensures { OnOk result (Appends list.old list.new (opening.tables_of (constants_of c.now))) }
{
    record_of(list, c)?;
    list.constant(0, MPU_RBAR)?;
    region(list, RECORD_CODE)?;
    stack_region(list, c)?;
    regions(list, c.slots, RECORD_SLOTS)?;
    Ok(())
}
