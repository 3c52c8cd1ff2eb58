//! The code of calls.

ghost use Rattle.std.specs.Prelude.{◌≡◌, ◌+◌, ◌%◌, ◌<◌, ◌≤◌, ◌^◌, [], ◌∷◌, ◌++◌, length, IfSome, OnOk};
ghost use Rattle.std.specs.List.{All};
ghost use Rattle.machine_thumb.specs.Table.{InTable, svc};
ghost use Rattle.machine_thumb.specs.declared.table.Instr.TheVariants.{BranchLink};
ghost use Rattle.machine_thumb_asm.specs.declared.item.Item.TheVariants.{Half};
ghost use Rattle.machine_thumb_asm.specs.Assembly.{here, total};
ghost use Rattle.machine_thumb_asm.specs.Finished as finished;
ghost use Rattle.code_model.specs.Words.{plain, save_code};
ghost use Rattle.code_model.specs.Calls.{args_code, cross_code, callee_code, icall_code, icross_code, call_items, icall_items};
ghost use Rattle.code_model.specs.Emitted.{with_more, HasRoom, IsNear};
ghost use Rattle.plan_model.specs.CompileLimits.{site_limit};

use crate::instructions::{load_home, put, save, supervisor_call, word_into};
use machine_thumb::Instr;
use machine_thumb_asm::Asm;
use std::alloc::AllocError;

/// Registers of the function into r0 and those behind it.
fn put_args(asm: &mut Asm, args: &[usize]) -> Result<(), AllocError>
    requires few { length args.now ≤ 4 }
    requires near { All (λ a. a < 256) args.now }
    requires room { HasRoom asm.old (plain (args_code 0 args.now)) }
    ensures { OnOk result (asm.new ≡ with_more asm.old (plain (args_code 0 args.now))) }
{
    for (register, arg) in args.iter().enumerate() {
        put(asm, &[load_home(register as u8, *arg)])?;
    }
    Ok(())
}

/// r0 into the register of the function that keeps the result, if one does.
fn put_result(asm: &mut Asm, to: Option<usize>) -> Result<(), AllocError>
    requires near { IfSome to (λ k. k < 256) }
    requires room { HasRoom asm.old (plain (save_code to)) }
    ensures { OnOk result (asm.new ≡ with_more asm.old (plain (save_code to))) }
{
    match to {
        None => Ok(()),
        Some(to) => put(asm, &[save(to)]),
    }
}

/// From the address of a branch plus 4 to another address.
fn distance(from: u32, to: u32) -> i32
    requires low { from < 2 ^ 31 }
    requires back { from ≤ to + 2 ^ 20 }
    requires forward { to < from + 2 ^ 20 }
    ensures { result ≡ finished.distance from to }
{
    if to < from + 4 {
        -((from + 4 - to) as i32)
    } else {
        (to - (from + 4)) as i32
    }
}

/// BL from an address to another.
fn branch_with_link(from: u32, to: u32) -> Instr
    requires low { from < 2 ^ 31 }
    requires back { from ≤ to + 2 ^ 20 }
    requires forward { to < from + 2 ^ 20 }
    requires from_even { from % 2 ≡ 0 }
    requires to_even { to % 2 ≡ 0 }
    ensures code { result ≡ BranchLink (finished.distance from to) }
    ensures in_table { InTable result }
{
    Instr::BranchLink {
        offset: distance(from, to),
    }
}

/// A call of the function with this entry, in the same compartment.
fn put_near_call(
    asm: &mut Asm,
    entry: u32,
    to: Option<usize>,
    args: &[usize],
) -> Result<(), AllocError>
    requires few { length args.now ≤ 4 }
    requires near { All (λ a. a < 256) args.now }
    requires to_near { IfSome to (λ k. k < 256) }
    requires even { here asm.old % 2 ≡ 0 }
    requires entry { IsNear (here asm.old) (here asm.old + total (call_items (here asm.old) entry None to args.now)) entry }
    requires room { HasRoom asm.old (call_items (here asm.old) entry None to args.now) }
    ensures { OnOk result (asm.new ≡ with_more asm.old (call_items (here asm.old) entry None to args.now)) }
{
    put_args(asm, args)?;
    let from = asm.here();
    put(asm, &[branch_with_link(from, entry)])?;
    put_result(asm, to)
}

/// SVC #0 and behind it the number of the call's site.
fn put_crossing(asm: &mut Asm, site: u32) -> Result<(), AllocError>
    requires few { site < site_limit }
    requires room { HasRoom asm.old (plain (svc 0 ∷ []) ++ Half site ∷ []) }
    ensures { OnOk result (asm.new ≡ with_more asm.old (plain (svc 0 ∷ []) ++ Half site ∷ [])) }
{
    put(asm, &[supervisor_call(0)])?;
    asm.half(site as u16)
}

/// A call of the function with this entry that may go to another compartment.
fn put_far_call(
    asm: &mut Asm,
    entry: u32,
    site: u32,
    to: Option<usize>,
    args: &[usize],
) -> Result<(), AllocError>
    requires even { entry % 2 ≡ 0 }
    requires site_few { site < site_limit }
    requires few { length args.now ≤ 4 }
    requires near { All (λ a. a < 256) args.now }
    requires to_near { IfSome to (λ k. k < 256) }
    requires room { HasRoom asm.old (plain (cross_code entry args.now) ++ Half site ∷ plain (save_code to)) }
    ensures { OnOk result (asm.new ≡ with_more asm.old (plain (cross_code entry args.now) ++ Half site ∷ plain (save_code to))) }
{
    put(asm, &word_into(12, entry + 1))?;
    put_args(asm, args)?;
    put_crossing(asm, site)?;
    put_result(asm, to)
}

/// A call of the function with this entry; `site` is the number of the call's site, where it may go to another compartment.
pub(crate) fn put_call(
    asm: &mut Asm,
    entry: u32,
    site: Option<u32>,
    to: Option<usize>,
    args: &[usize],
) -> Result<(), AllocError>
    requires site_few { IfSome site (λ s. s < site_limit) }
    requires few { length args.now ≤ 4 }
    requires near { All (λ a. a < 256) args.now }
    requires to_near { IfSome to (λ k. k < 256) }
    requires even { here asm.old % 2 ≡ 0 }
    requires entry { IsNear (here asm.old) (here asm.old + total (call_items (here asm.old) entry site to args.now)) entry }
    requires room { HasRoom asm.old (call_items (here asm.old) entry site to args.now) }
    ensures { OnOk result (asm.new ≡ with_more asm.old (call_items (here asm.old) entry site to args.now)) }
{
    match site {
        None => put_near_call(asm, entry, to, args),
        Some(site) => put_far_call(asm, entry, site, to, args),
    }
}

/// The function whose address a register holds into r12, and the arguments: LDR r0, MOV r12, r0, and LDR of the arguments.
fn put_callee(asm: &mut Asm, callee: usize, args: &[usize]) -> Result<(), AllocError>
    requires callee_near { callee < 256 }
    requires few { length args.now ≤ 4 }
    requires near { All (λ a. a < 256) args.now }
    requires room { HasRoom asm.old (plain (callee_code callee args.now)) }
    ensures { OnOk result (asm.new ≡ with_more asm.old (plain (callee_code callee args.now))) }
{
    let into_r12 = Instr::HighRegister { op: 2, m: 0, d: 12 };
    put(asm, &[load_home(0, callee), into_r12])?;
    put_args(asm, args)
}

/// A call of the function whose address a register holds, in the same compartment.
fn put_near_icall(
    asm: &mut Asm,
    callee: usize,
    to: Option<usize>,
    args: &[usize],
) -> Result<(), AllocError>
    requires callee_near { callee < 256 }
    requires few { length args.now ≤ 4 }
    requires near { All (λ a. a < 256) args.now }
    requires to_near { IfSome to (λ k. k < 256) }
    requires room { HasRoom asm.old (plain (icall_code callee args.now) ++ plain (save_code to)) }
    ensures { OnOk result (asm.new ≡ with_more asm.old (plain (icall_code callee args.now) ++ plain (save_code to))) }
{
    put_callee(asm, callee, args)?;
    put(asm, &[Instr::BranchExchange { op: 1, m: 12 }])?;
    put_result(asm, to)
}

/// A call of the function whose address a register holds, where it may go to another compartment.
fn put_far_icall(
    asm: &mut Asm,
    callee: usize,
    site: u32,
    to: Option<usize>,
    args: &[usize],
) -> Result<(), AllocError>
    requires callee_near { callee < 256 }
    requires site_few { site < site_limit }
    requires few { length args.now ≤ 4 }
    requires near { All (λ a. a < 256) args.now }
    requires to_near { IfSome to (λ k. k < 256) }
    requires room { HasRoom asm.old (plain (icross_code callee args.now) ++ Half site ∷ plain (save_code to)) }
    ensures { OnOk result (asm.new ≡ with_more asm.old (plain (icross_code callee args.now) ++ Half site ∷ plain (save_code to))) }
{
    put_callee(asm, callee, args)?;
    put_crossing(asm, site)?;
    put_result(asm, to)
}

/// A call of the function whose address a register holds; `site` is the number of the call's site, where it may go to another
/// compartment.
pub(crate) fn put_icall(
    asm: &mut Asm,
    callee: usize,
    site: Option<u32>,
    to: Option<usize>,
    args: &[usize],
) -> Result<(), AllocError>
    requires callee_near { callee < 256 }
    requires site_few { IfSome site (λ s. s < site_limit) }
    requires few { length args.now ≤ 4 }
    requires near { All (λ a. a < 256) args.now }
    requires to_near { IfSome to (λ k. k < 256) }
    requires room { HasRoom asm.old (icall_items site to callee args.now) }
    ensures { OnOk result (asm.new ≡ with_more asm.old (icall_items site to callee args.now)) }
{
    match site {
        None => put_near_icall(asm, callee, to, args),
        Some(site) => put_far_icall(asm, callee, site, to, args),
    }
}
