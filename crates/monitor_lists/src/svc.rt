//! The handler of SVC: enter, leave, lend and unlend.

ghost use Rattle.std.specs.Prelude.{◌≡◌, OnOk, IfOk};
ghost use Rattle.monitor_steps.specs.Lists.{steps_of};
ghost use Rattle.monitor_program.specs.Svc as handler;
ghost use Rattle.monitor_lists.specs.Made.{Appends, Ends, constants_of};

use crate::halts::{HALT_END, HALT_LIMIT, HALT_LOAN, HALT_NUMBER, HALT_SITE, HALT_TARGET};
use crate::opening::{close_handler, open_handler, tables_of};
use crate::values::{
    FRAME_SIZE, MOST_LOANS, MOST_TARGETS, NO_COMPARTMENT, TARGET_SIZE, THREAD_XPSR,
};
use crate::{Numbers, StepList};
use base_words::memory::Width;
use monitor_model::places::{
    CUR, DEPTH, FRAME_LR, FRAME_R0, FRAME_R1, FRAME_R2, FRAME_R3, FRAME_R12, FRAME_RETURN,
    FRAME_XPSR, LOAN_END, LOAN_FROM, LOAN_NUMBER, LOANS, MARK, SAVED_CUR, SAVED_MARK, SAVED_PSP,
    SAVED_TOP, SITE_COUNT, SITE_FIRST, SITE_RETURN, TARGET_COMPARTMENT, TARGET_ENTRY, TOP,
};
use monitor_steps::{PrivilegedCond, PrivilegedOp};
use std::alloc::{AllocError, Global};

/// The number at the return address is that of a site; the record of it into r6, by r7. Else the machine halts with 2.
fn site_record(list: &mut StepList, c: &Numbers) -> Result<(), AllocError>
    ensures { OnOk result (Appends list.old list.new (handler.site_record (constants_of c.now))) }
{
    list.load(Width::Half, 5, 4)?;
    list.constant(6, c.sites)?;
    list.must(PrivilegedCond::Ult, 5, 6, HALT_SITE)?;
    list.constant(6, 2)?;
    list.copy(7, 5)?;
    list.alu(PrivilegedOp::Shl, 7, 7, 6)?;
    list.alu(PrivilegedOp::Add, 6, 7, 7)?;
    list.alu(PrivilegedOp::Add, 6, 6, 7)?;
    list.constant(7, c.sites_at)?;
    list.alu(PrivilegedOp::Add, 6, 6, 7)?;
    Ok(())
}

/// The site at the return address: its first target into r5, their number into r6. Else the machine halts with 2.
fn site(list: &mut StepList, c: &Numbers) -> Result<(), AllocError>
    ensures { OnOk result (Appends list.old list.new (handler.site (constants_of c.now))) }
{
    site_record(list, c)?;
    list.load_word(7, 6, SITE_RETURN)?;
    list.must(PrivilegedCond::Eq, 7, 4, HALT_SITE)?;
    list.load_word(5, 6, SITE_FIRST)?;
    list.load_word(6, 6, SITE_COUNT)?;
    Ok(())
}

/// One turn of the loop over a site's targets.
fn target_turn(alloc: Global) -> Result<StepList, AllocError>
    ensures { IfOk result (λ list. steps_of list.steps.items ≡ handler.target_turn) }
{
    let mut found = StepList::new(alloc);
    found.load_word(5, 7, TARGET_COMPARTMENT)?;
    let mut list = StepList::new(alloc);
    list.load_word(3, 7, TARGET_ENTRY)?;
    list.test(PrivilegedCond::Eq, 3, 4, found, StepList::new(alloc))?;
    list.constant(3, TARGET_SIZE)?;
    list.alu(PrivilegedOp::Add, 7, 7, 3)?;
    Ok(list)
}

/// Before the loop over a site's targets: the entry that is asked for into r4, the first target's record into r7, and no
/// compartment into r5.
fn target_asked(list: &mut StepList, c: &Numbers) -> Result<(), AllocError>
    ensures { OnOk result (Appends list.old list.new (handler.target_asked (constants_of c.now))) }
{
    list.load_word(4, 0, FRAME_R12)?;
    list.constant(7, 3)?;
    list.alu(PrivilegedOp::Shl, 5, 5, 7)?;
    list.constant(7, c.targets_at)?;
    list.alu(PrivilegedOp::Add, 7, 7, 5)?;
    list.constant(5, NO_COMPARTMENT)?;
    Ok(())
}

/// The compartment of the target that is asked for into r5. Else the machine halts with 3.
fn target(list: &mut StepList, c: &Numbers) -> Result<(), AllocError>
    ensures { OnOk result (Appends list.old list.new (handler.target (constants_of c.now))) }
{
    let turn = target_turn(list.allocator())?;
    target_asked(list, c)?;
    list.repeat(6, MOST_TARGETS, turn)?;
    list.constant(3, NO_COMPARTMENT)?;
    list.must_not(PrivilegedCond::Eq, 5, 3, HALT_TARGET)?;
    Ok(())
}

/// The new TOP into r3. Where the stack has no eighth left the machine halts with 5.
fn rounded(list: &mut StepList, c: &Numbers) -> Result<(), AllocError>
    ensures { OnOk result (Appends list.old list.new (handler.rounded (constants_of c.now))) }
{
    list.alu(PrivilegedOp::Sub, 3, 0, 2)?;
    list.constant(6, c.eighth)?;
    list.alu(PrivilegedOp::Shr, 3, 3, 6)?;
    list.alu(PrivilegedOp::Shl, 3, 3, 6)?;
    list.constant(6, 0)?;
    list.must_not(PrivilegedCond::Eq, 3, 6, HALT_LIMIT)?;
    list.alu(PrivilegedOp::Add, 3, 3, 2)?;
    Ok(())
}

/// The caller goes on behind the halfword.
fn raise(list: &mut StepList) -> Result<(), AllocError>
    ensures { OnOk result (Appends list.old list.new handler.raise) }
{
    list.load_word(4, 0, FRAME_RETURN)?;
    list.constant(6, 2)?;
    list.alu(PrivilegedOp::Add, 4, 4, 6)?;
    list.store_word(4, 0, FRAME_RETURN)?;
    Ok(())
}

/// PSP, CUR, TOP and MARK into the saved entry numbered DEPTH, which stays in r4.
fn save(list: &mut StepList) -> Result<(), AllocError>
    ensures { OnOk result (Appends list.old list.new handler.save) }
{
    list.load_word(4, 1, DEPTH)?;
    list.constant(6, 4)?;
    list.copy(7, 4)?;
    list.alu(PrivilegedOp::Shl, 7, 7, 6)?;
    list.alu(PrivilegedOp::Add, 6, 7, 1)?;
    list.store_word(0, 6, SAVED_PSP)?;
    list.load_word(7, 1, CUR)?;
    list.store_word(7, 6, SAVED_CUR)?;
    list.load_word(7, 1, TOP)?;
    list.store_word(7, 6, SAVED_TOP)?;
    list.load_word(7, 1, MARK)?;
    list.store_word(7, 6, SAVED_MARK)?;
    Ok(())
}

/// The address of the callee's frame into r6, and the arguments there.
fn frame_arguments(list: &mut StepList) -> Result<(), AllocError>
    ensures { OnOk result (Appends list.old list.new handler.frame_arguments) }
{
    list.constant(6, FRAME_SIZE)?;
    list.alu(PrivilegedOp::Sub, 6, 3, 6)?;
    list.load_word(7, 0, FRAME_R0)?;
    list.store_word(7, 6, FRAME_R0)?;
    list.load_word(7, 0, FRAME_R1)?;
    list.store_word(7, 6, FRAME_R1)?;
    list.load_word(7, 0, FRAME_R2)?;
    list.store_word(7, 6, FRAME_R2)?;
    list.load_word(7, 0, FRAME_R3)?;
    list.store_word(7, 6, FRAME_R3)?;
    Ok(())
}

/// The callee's frame below the new TOP, its address in r6.
fn frame(list: &mut StepList, c: &Numbers) -> Result<(), AllocError>
    ensures { OnOk result (Appends list.old list.new (handler.frame (constants_of c.now))) }
{
    frame_arguments(list)?;
    list.constant(7, 0)?;
    list.store_word(7, 6, FRAME_R12)?;
    list.constant(7, c.stub_entry)?;
    list.store_word(7, 6, FRAME_LR)?;
    list.load_word(7, 0, FRAME_R12)?;
    list.constant(2, 1)?;
    list.alu(PrivilegedOp::Sub, 7, 7, 2)?;
    list.store_word(7, 6, FRAME_RETURN)?;
    list.constant(7, THREAD_XPSR)?;
    list.store_word(7, 6, FRAME_XPSR)?;
    Ok(())
}

/// One entry more is saved; the callee's compartment, TOP, MARK and stack.
fn entered(list: &mut StepList) -> Result<(), AllocError>
    ensures { OnOk result (Appends list.old list.new handler.entered) }
{
    list.constant(7, 1)?;
    list.alu(PrivilegedOp::Add, 4, 4, 7)?;
    list.store_word(4, 1, DEPTH)?;
    list.store_word(5, 1, CUR)?;
    list.store_word(3, 1, TOP)?;
    list.load_word(7, 1, LOANS)?;
    list.store_word(7, 1, MARK)?;
    list.write_psp(6)?;
    Ok(())
}

/// SVC 0: a call of another compartment's function.
fn enter(alloc: Global, c: &Numbers) -> Result<StepList, AllocError>
    ensures { IfOk result (λ list. steps_of list.steps.items ≡ handler.enter (constants_of c.now)) }
{
    let mut list = StepList::new(alloc);
    site(&mut list, c)?;
    target(&mut list, c)?;
    rounded(&mut list, c)?;
    raise(&mut list)?;
    save(&mut list)?;
    frame(&mut list, c)?;
    entered(&mut list)?;
    tables_of(&mut list, c)?;
    close_handler(&mut list)?;
    Ok(list)
}

/// The end of the callee: its loans end, and the saved entry is the last one no more. The entry's address into r6, by r4. With
/// no saved entry the machine halts with 0.
fn left(list: &mut StepList) -> Result<(), AllocError>
    ensures { OnOk result (Appends list.old list.new handler.left) }
{
    list.load_word(4, 1, DEPTH)?;
    list.constant(6, 0)?;
    list.must_not(PrivilegedCond::Eq, 4, 6, HALT_END)?;
    list.constant(6, 1)?;
    list.alu(PrivilegedOp::Sub, 4, 4, 6)?;
    list.store_word(4, 1, DEPTH)?;
    list.load_word(7, 1, MARK)?;
    list.store_word(7, 1, LOANS)?;
    list.constant(6, 4)?;
    list.alu(PrivilegedOp::Shl, 4, 4, 6)?;
    list.alu(PrivilegedOp::Add, 6, 4, 1)?;
    Ok(())
}

/// CUR, TOP and MARK of the caller, the result into its frame, and its stack.
fn restored(list: &mut StepList) -> Result<(), AllocError>
    ensures { OnOk result (Appends list.old list.new handler.restored) }
{
    list.load_word(5, 6, SAVED_CUR)?;
    list.store_word(5, 1, CUR)?;
    list.load_word(3, 6, SAVED_TOP)?;
    list.store_word(3, 1, TOP)?;
    list.load_word(7, 6, SAVED_MARK)?;
    list.store_word(7, 1, MARK)?;
    list.load_word(4, 6, SAVED_PSP)?;
    list.load_word(7, 0, FRAME_R0)?;
    list.store_word(7, 4, FRAME_R0)?;
    list.write_psp(4)?;
    Ok(())
}

/// SVC 1: the return to the caller's compartment.
fn leave(alloc: Global, c: &Numbers) -> Result<StepList, AllocError>
    ensures { IfOk result (λ list. steps_of list.steps.items ≡ handler.leave (constants_of c.now)) }
{
    let mut list = StepList::new(alloc);
    left(&mut list)?;
    restored(&mut list)?;
    tables_of(&mut list, c)?;
    close_handler(&mut list)?;
    Ok(list)
}

/// There is room for a loan, and the number is that of a lendable local; else the machine halts with 6.
fn lend_number(list: &mut StepList, c: &Numbers) -> Result<(), AllocError>
    ensures { OnOk result (Appends list.old list.new (handler.lend_number (constants_of c.now))) }
{
    list.load_word(4, 0, FRAME_R0)?;
    list.load_word(5, 0, FRAME_R1)?;
    list.load_word(6, 1, LOANS)?;
    list.constant(7, MOST_LOANS)?;
    list.must_not(PrivilegedCond::Eq, 6, 7, HALT_LOAN)?;
    list.constant(7, c.lends)?;
    list.must(PrivilegedCond::Ult, 5, 7, HALT_LOAN)?;
    list.constant(7, 3)?;
    list.alu(PrivilegedOp::And, 7, 7, 4)?;
    list.constant(2, 0)?;
    list.must(PrivilegedCond::Eq, 7, 2, HALT_LOAN)?;
    Ok(())
}

/// The size of the local into r2; it lies between the frame's end and TOP, else the machine halts with 6.
fn lend_place(list: &mut StepList, c: &Numbers) -> Result<(), AllocError>
    ensures { OnOk result (Appends list.old list.new (handler.lend_place (constants_of c.now))) }
{
    list.alu(PrivilegedOp::Add, 2, 5, 5)?;
    list.alu(PrivilegedOp::Add, 2, 2, 2)?;
    list.constant(7, c.lends_at)?;
    list.alu(PrivilegedOp::Add, 2, 2, 7)?;
    list.load_word(2, 2, 0)?;
    list.constant(7, FRAME_SIZE)?;
    list.alu(PrivilegedOp::Add, 7, 0, 7)?;
    list.must(PrivilegedCond::Ule, 7, 4, HALT_LOAN)?;
    list.must(PrivilegedCond::Ule, 4, 3, HALT_LOAN)?;
    list.alu(PrivilegedOp::Sub, 7, 3, 4)?;
    list.must(PrivilegedCond::Ule, 2, 7, HALT_LOAN)?;
    Ok(())
}

/// The loan is the last one.
fn lend_entry(list: &mut StepList, c: &Numbers) -> Result<(), AllocError>
    ensures { OnOk result (Appends list.old list.new (handler.lend_entry (constants_of c.now))) }
{
    list.alu(PrivilegedOp::Add, 7, 6, 6)?;
    list.alu(PrivilegedOp::Add, 7, 7, 6)?;
    list.alu(PrivilegedOp::Add, 7, 7, 7)?;
    list.alu(PrivilegedOp::Add, 7, 7, 7)?;
    list.constant(3, c.loans_at)?;
    list.alu(PrivilegedOp::Add, 7, 7, 3)?;
    list.store_word(4, 7, LOAN_FROM)?;
    list.alu(PrivilegedOp::Add, 2, 4, 2)?;
    list.store_word(2, 7, LOAN_END)?;
    list.store_word(5, 7, LOAN_NUMBER)?;
    list.constant(3, 1)?;
    list.alu(PrivilegedOp::Add, 6, 6, 3)?;
    list.store_word(6, 1, LOANS)?;
    Ok(())
}

/// SVC 2: a local is lent.
fn lend(alloc: Global, c: &Numbers) -> Result<StepList, AllocError>
    ensures { IfOk result (λ list. steps_of list.steps.items ≡ handler.lend (constants_of c.now)) }
{
    let mut list = StepList::new(alloc);
    lend_number(&mut list, c)?;
    lend_place(&mut list, c)?;
    lend_entry(&mut list, c)?;
    close_handler(&mut list)?;
    Ok(list)
}

/// SVC 3: the last loan ends.
fn unlend(alloc: Global) -> Result<StepList, AllocError>
    ensures { IfOk result (λ list. steps_of list.steps.items ≡ handler.unlend) }
{
    let mut list = StepList::new(alloc);
    list.load_word(4, 1, LOANS)?;
    list.load_word(5, 1, MARK)?;
    list.must_not(PrivilegedCond::Eq, 4, 5, HALT_LOAN)?;
    list.constant(5, 1)?;
    list.alu(PrivilegedOp::Sub, 4, 4, 5)?;
    list.store_word(4, 1, LOANS)?;
    close_handler(&mut list)?;
    Ok(list)
}

/// The number of the SVC into r5, the return address into r4.
fn svc_number(list: &mut StepList) -> Result<(), AllocError>
    ensures { OnOk result (Appends list.old list.new handler.svc_number) }
{
    list.load_word(4, 0, FRAME_RETURN)?;
    list.constant(5, 2)?;
    list.alu(PrivilegedOp::Sub, 5, 4, 5)?;
    list.load(Width::Byte, 5, 5)?;
    Ok(())
}

/// A test of the number in r5: where it is this one, a list, which ends the handler.
fn on_number(list: &mut StepList, number: u32, chosen: StepList) -> Result<(), AllocError>
    ensures { OnOk result (Appends list.old list.new (handler.on_number number (steps_of chosen.steps.items))) }
{
    let rest = list.other();
    list.constant(6, number)?;
    list.test(PrivilegedCond::Eq, 5, 6, chosen, rest)?;
    Ok(())
}

/// The list of the number in r5. Above 3 the machine halts with 1.
fn by_number(list: &mut StepList, c: &Numbers) -> Result<(), AllocError>
    ensures { OnOk result (Ends list.old list.new (handler.by_number (constants_of c.now))) }
{
    let alloc = list.allocator();
    on_number(list, 3, unlend(alloc)?)?;
    on_number(list, 2, lend(alloc, c)?)?;
    on_number(list, 0, enter(alloc, c)?)?;
    on_number(list, 1, leave(alloc, c)?)?;
    list.halt(HALT_NUMBER)?;
    Ok(())
}

/// The handler.
pub fn handler(alloc: Global, c: &Numbers) -> Result<StepList, AllocError>
    ensures { IfOk result (λ list. steps_of list.steps.items ≡ handler.svc (constants_of c.now)) }
{
    let mut list = StepList::new(alloc);
    open_handler(&mut list, c)?;
    svc_number(&mut list)?;
    by_number(&mut list, c)?;
    Ok(list)
}
