//! The handler of MemManage: an access by a loan is made for the compartment that asked for it.

ghost use Rattle.std.specs.Prelude.{◌≡◌, ◌<◌, true, OnOk, IfOk};
ghost use Rattle.monitor_steps.specs.Lists.{steps_of};
ghost use Rattle.monitor_program.specs.MemFault as handler;
ghost use Rattle.monitor_lists.specs.Made.{Appends, Ends, constants_of};

use crate::halts::{HALT_FAULT, HALT_LOAD, HALT_STORE};
use crate::opening::{close_handler, open_handler, record_of};
use crate::values::{LOAN_SIZE, MOST_LOANS, REFUSED_ACCESS};
use crate::{Numbers, StepList};
use base_words::memory::Width;
use machine_model::CFSR;
use monitor_model::places::{
    CUR, FRAME_R0, FRAME_R1, FRAME_RETURN, LOAN_END, LOAN_FROM, LOAN_NUMBER, LOANS,
};
use monitor_steps::{PrivilegedCond, PrivilegedOp};
use std::alloc::{AllocError, Global};

/// A test of the halfword in r4: a width into r6, by r5, where it is this one, and else another list.
fn on_half(list: &mut StepList, half: u32, width: u32, other: StepList) -> Result<(), AllocError>
    ensures { OnOk result (Appends list.old list.new (handler.on_half half width (steps_of other.steps.items))) }
{
    let mut found = list.other();
    found.constant(6, width)?;
    list.constant(5, half)?;
    list.test(PrivilegedCond::Eq, 4, 5, found, other)?;
    Ok(())
}

/// The width of one of three instructions into r6; with another halfword the other list.
fn widths(
    list: &mut StepList,
    word: u32,
    byte: u32,
    half: u32,
    other: StepList,
) -> Result<(), AllocError>
    ensures { OnOk result (Appends list.old list.new (handler.widths word byte half (steps_of other.steps.items))) }
{
    let mut third = list.other();
    on_half(&mut third, half, 2, other)?;
    let mut second = list.other();
    on_half(&mut second, byte, 1, third)?;
    on_half(list, word, 4, second)?;
    Ok(())
}

/// r7 becomes 1 where the mask has the bit of the loan's number.
fn has_bit(alloc: Global) -> Result<StepList, AllocError>
    ensures { IfOk result (λ list. steps_of list.steps.items ≡ handler.has_bit) }
{
    let mut found = StepList::new(alloc);
    found.constant(7, 1)?;
    let mut list = StepList::new(alloc);
    list.load_word(0, 2, LOAN_NUMBER)?;
    list.copy(1, 5)?;
    list.alu(PrivilegedOp::Shr, 1, 1, 0)?;
    list.constant(0, 1)?;
    list.alu(PrivilegedOp::And, 1, 1, 0)?;
    list.test(PrivilegedCond::Eq, 1, 0, found, StepList::new(alloc))?;
    Ok(list)
}

/// What is left of the loan is at least the width.
fn has_width(alloc: Global) -> Result<StepList, AllocError>
    ensures { IfOk result (λ list. steps_of list.steps.items ≡ handler.has_width) }
{
    let bit = has_bit(alloc)?;
    let mut list = StepList::new(alloc);
    list.alu(PrivilegedOp::Sub, 0, 0, 4)?;
    list.test(PrivilegedCond::Ule, 6, 0, bit, StepList::new(alloc))?;
    Ok(list)
}

/// The address is not behind the loan's end.
fn has_end(alloc: Global) -> Result<StepList, AllocError>
    ensures { IfOk result (λ list. steps_of list.steps.items ≡ handler.has_end) }
{
    let width = has_width(alloc)?;
    let mut list = StepList::new(alloc);
    list.load_word(0, 2, LOAN_END)?;
    list.test(PrivilegedCond::Ule, 4, 0, width, StepList::new(alloc))?;
    Ok(list)
}

/// One turn of the loop over the loans.
fn loan_turn(alloc: Global) -> Result<StepList, AllocError>
    ensures { IfOk result (λ list. steps_of list.steps.items ≡ handler.loan_turn) }
{
    let end = has_end(alloc)?;
    let mut list = StepList::new(alloc);
    list.load_word(0, 2, LOAN_FROM)?;
    list.test(PrivilegedCond::Ule, 0, 4, end, StepList::new(alloc))?;
    list.constant(0, LOAN_SIZE)?;
    list.alu(PrivilegedOp::Add, 2, 2, 0)?;
    Ok(list)
}

/// Before the loop over the loans: the mask into r5, the width into r6, the address into r4.
fn scan_begun(list: &mut StepList, c: &Numbers, mask_at: u8) -> Result<(), AllocError>
    requires { mask_at < 32 }
    ensures { OnOk result (Appends list.old list.new (handler.scan_begun (constants_of c.now) mask_at)) }
{
    list.copy(2, 6)?;
    list.load_word(5, 1, CUR)?;
    record_of(list, c)?;
    list.load_word(5, 6, mask_at)?;
    list.copy(6, 2)?;
    list.load_word(4, 0, FRAME_R1)?;
    list.load_word(3, 1, LOANS)?;
    list.constant(2, c.loans_at)?;
    list.constant(7, 0)?;
    Ok(())
}

/// Some live loan holds the width from the stacked r1 on and is in a mask; else the machine halts with a number.
fn scan(list: &mut StepList, c: &Numbers, mask_at: u8, code: u8) -> Result<(), AllocError>
    requires { mask_at < 32 }
    ensures { OnOk result (Appends list.old list.new (handler.scan (constants_of c.now) mask_at code)) }
{
    let turn = loan_turn(list.allocator())?;
    scan_begun(list, c, mask_at)?;
    list.repeat(3, MOST_LOANS, turn)?;
    list.constant(0, 1)?;
    list.must(PrivilegedCond::Eq, 7, 0, code)?;
    list.read_psp(0)?;
    Ok(())
}

/// One of three lists by the width in r6, by r7.
fn by_width(
    list: &mut StepList,
    word: StepList,
    byte: StepList,
    half: StepList,
) -> Result<(), AllocError>
    ensures { OnOk result (Appends list.old list.new (handler.of_width (steps_of word.steps.items) (steps_of byte.steps.items) (steps_of half.steps.items))) }
{
    let mut narrow = list.other();
    narrow.constant(7, 1)?;
    narrow.test(PrivilegedCond::Eq, 6, 7, byte, half)?;
    list.constant(7, 4)?;
    list.test(PrivilegedCond::Eq, 6, 7, word, narrow)?;
    Ok(())
}

/// A store of r5 to the address in r4.
fn one_store(alloc: Global, width: Width) -> Result<StepList, AllocError>
    ensures { IfOk result (λ list. steps_of list.steps.items ≡ handler.one_store width) }
{
    let mut list = StepList::new(alloc);
    list.store(width, 5, 4)?;
    Ok(list)
}

/// A load of r5 from the address in r4.
fn one_load(alloc: Global, width: Width) -> Result<StepList, AllocError>
    ensures { IfOk result (λ list. steps_of list.steps.items ≡ handler.one_load width) }
{
    let mut list = StepList::new(alloc);
    list.load(width, 5, 4)?;
    Ok(list)
}

/// The store by the width in r6.
fn stored(list: &mut StepList) -> Result<(), AllocError>
    ensures { OnOk result (Appends list.old list.new handler.stored) }
{
    let word = one_store(list.allocator(), Width::Word)?;
    let byte = one_store(list.allocator(), Width::Byte)?;
    let half = one_store(list.allocator(), Width::Half)?;
    by_width(list, word, byte, half)?;
    Ok(())
}

/// The load by the width in r6.
fn loaded(list: &mut StepList) -> Result<(), AllocError>
    ensures { OnOk result (Appends list.old list.new handler.loaded) }
{
    let word = one_load(list.allocator(), Width::Word)?;
    let byte = one_load(list.allocator(), Width::Byte)?;
    let half = one_load(list.allocator(), Width::Half)?;
    by_width(list, word, byte, half)?;
    Ok(())
}

/// The compartment goes on behind the instruction, and the status of the fault is cleared.
fn finished(list: &mut StepList) -> Result<(), AllocError>
    ensures { OnOk result (Ends list.old list.new handler.finished) }
{
    list.load_word(4, 0, FRAME_RETURN)?;
    list.constant(5, 2)?;
    list.alu(PrivilegedOp::Add, 4, 4, 5)?;
    list.store_word(4, 0, FRAME_RETURN)?;
    list.constant(4, CFSR)?;
    list.load_word(5, 4, 0)?;
    list.store_word(5, 4, 0)?;
    close_handler(list)?;
    Ok(())
}

/// The stacked r0 to the stacked r1; without a loan the machine halts with 7.
fn stores(list: &mut StepList, c: &Numbers) -> Result<(), AllocError>
    ensures { OnOk result (Ends list.old list.new (handler.stores (constants_of c.now))) }
{
    scan(list, c, c.record_mask(), HALT_STORE)?;
    list.load_word(5, 0, FRAME_R0)?;
    stored(list)?;
    finished(list)?;
    Ok(())
}

/// The stacked r0 from the stacked r1; without a loan the machine halts with 9.
fn lent_load(list: &mut StepList, c: &Numbers) -> Result<(), AllocError>
    ensures { OnOk result (Ends list.old list.new (handler.lent_load (constants_of c.now))) }
{
    scan(list, c, c.record_reads(), HALT_LOAD)?;
    loaded(list)?;
    list.store_word(5, 0, FRAME_R0)?;
    finished(list)?;
    Ok(())
}

/// On a closed board: a load by a loan; at another halfword the machine halts with 8.
fn closed_loads(alloc: Global, c: &Numbers) -> Result<StepList, AllocError>
    ensures { IfOk result (λ list. steps_of list.steps.items ≡ handler.loads (constants_of c.now) true) }
{
    let mut none = StepList::new(alloc);
    none.halt(HALT_FAULT)?;
    let mut list = StepList::new(alloc);
    widths(&mut list, 0x6808, 0x7808, 0x8808, none)?;
    lent_load(&mut list, c)?;
    Ok(list)
}

/// No store: the machine halts with 8 on an open board; on a closed one it may be a load.
fn loads(alloc: Global, c: &Numbers) -> Result<StepList, AllocError>
    ensures { IfOk result (λ list. steps_of list.steps.items ≡ handler.loads (constants_of c.now) c.now.closed) }
{
    if c.closed {
        return closed_loads(alloc, c);
    }
    let mut list = StepList::new(alloc);
    list.halt(HALT_FAULT)?;
    Ok(list)
}

/// The fault is a refused data access whose address is known, else the machine halts with 8; its halfword into r4.
fn fault_asked(list: &mut StepList) -> Result<(), AllocError>
    ensures { OnOk result (Appends list.old list.new handler.fault_asked) }
{
    list.constant(4, CFSR)?;
    list.load_word(5, 4, 0)?;
    list.constant(6, REFUSED_ACCESS)?;
    list.alu(PrivilegedOp::And, 5, 5, 6)?;
    list.must(PrivilegedCond::Eq, 5, 6, HALT_FAULT)?;
    list.load_word(4, 0, FRAME_RETURN)?;
    list.load(Width::Half, 4, 4)?;
    Ok(())
}

/// The handler.
pub fn handler(alloc: Global, c: &Numbers) -> Result<StepList, AllocError>
    ensures { IfOk result (λ list. steps_of list.steps.items ≡ handler.memfault (constants_of c.now)) }
{
    let other = loads(alloc, c)?;
    let mut list = StepList::new(alloc);
    open_handler(&mut list, c)?;
    fault_asked(&mut list)?;
    widths(&mut list, 0x6008, 0x7008, 0x8008, other)?;
    stores(&mut list, c)?;
    Ok(list)
}
