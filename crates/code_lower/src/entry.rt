//! The code at a function's entry and at its return.

ghost use Rattle.std.specs.Prelude.{◌≡◌, ◌-◌, ◌<◌, ◌≤◌, map, IfSome, OnOk};
ghost use Rattle.std.specs.List.{All};
ghost use Rattle.machine_thumb.specs.Table.{InTable};
ghost use Rattle.machine_thumb.specs.declared.table.Instr.TheVariants.{AdjustStack};
ghost use Rattle.code_model.specs.Words.{plain};
ghost use Rattle.code_model.specs.Entry.{sub_code, add_code, stores_code, frame_code, lend_code, enter_code, unlend_code, result_code, leave_code};
ghost use Rattle.code_lower.specs.Subjects.{lend_of, IsSmallLend};
ghost use Rattle.code_model.specs.Emitted.{with_more, HasRoom};

use crate::instructions::{byte_into, home_address, load_home, put, store_home, supervisor_call};
use crate::subject::Lent;
use machine_thumb::Instr;
use machine_thumb_asm::Asm;
use std::alloc::AllocError;

/// The most words that one instruction adds to the stack pointer or takes from it.
const ONCE: usize = 127;

/// ADD SP with `op` 0 or SUB SP with `op` 1 by a number of words.
fn adjust(op: u8, words: usize) -> Instr
    requires which { op < 2 }
    requires few { words < 128 }
    ensures code { result ≡ AdjustStack op words }
    ensures in_table { InTable result }
{
    Instr::AdjustStack {
        op,
        imm7: words as u8,
    }
}

/// SUB SP by a number of words.
fn put_sub(asm: &mut Asm, words: usize) -> Result<(), AllocError>
    requires few { words < 255 }
    requires room { HasRoom asm.old (plain (sub_code words)) }
    ensures { OnOk result (asm.new ≡ with_more asm.old (plain (sub_code words))) }
{
    if words <= ONCE {
        put(asm, &[adjust(1, words)])
    } else {
        put(asm, &[adjust(1, ONCE), adjust(1, words - ONCE)])
    }
}

/// ADD SP by a number of words.
fn put_add(asm: &mut Asm, words: usize) -> Result<(), AllocError>
    requires few { words < 255 }
    requires room { HasRoom asm.old (plain (add_code words)) }
    ensures { OnOk result (asm.new ≡ with_more asm.old (plain (add_code words))) }
{
    if words <= ONCE {
        put(asm, &[adjust(0, words)])
    } else {
        put(asm, &[adjust(0, ONCE), adjust(0, words - ONCE)])
    }
}

/// The parameters from r0 on into the first words of the frame.
fn put_params(asm: &mut Asm, params: usize) -> Result<(), AllocError>
    requires few { params ≤ 4 }
    requires room { HasRoom asm.old (plain (stores_code (λ k. k) params 0)) }
    ensures { OnOk result (asm.new ≡ with_more asm.old (plain (stores_code (λ k. k) params 0))) }
{
    for k in 0..params {
        put(asm, &[store_home(k as u8, k)])?;
    }
    Ok(())
}

/// r0 into the words of the frame from one on.
fn put_clears(asm: &mut Asm, from: usize, words: usize) -> Result<(), AllocError>
    requires few { words < 255 }
    requires inside { from ≤ words }
    requires room { HasRoom asm.old (plain (stores_code (λ k. 0) (words - from) from)) }
    ensures { OnOk result (asm.new ≡ with_more asm.old (plain (stores_code (λ k. 0) (words - from) from))) }
{
    for k in from..words {
        put(asm, &[store_home(0, k)])?;
    }
    Ok(())
}

/// The frame of a function, by the number of its parameters and of its words below the return address.
fn put_frame(asm: &mut Asm, params: usize, words: usize) -> Result<(), AllocError>
    requires few { words < 255 }
    requires params_few { params ≤ 4 }
    requires inside { params ≤ words }
    requires room { HasRoom asm.old (plain (frame_code params words)) }
    ensures { OnOk result (asm.new ≡ with_more asm.old (plain (frame_code params words))) }
{
    let push = Instr::PushPop {
        op: 0,
        m: 1,
        p: 0,
        list: 0,
    };
    put(asm, &[push])?;
    put_sub(asm, words)?;
    put_params(asm, params)?;
    put(asm, &[byte_into(0, 0)])?;
    put_clears(asm, params, words)
}

/// Lends locals, one behind the other.
fn put_lends(asm: &mut Asm, lent: &[Lent]) -> Result<(), AllocError>
    requires few { All IsSmallLend lent.now }
    requires room { HasRoom asm.old (plain (lend_code (map lend_of lent.now))) }
    ensures { OnOk result (asm.new ≡ with_more asm.old (plain (lend_code (map lend_of lent.now)))) }
{
    for lend in lent {
        let code = [
            home_address(0, lend.home),
            byte_into(1, lend.number as u8),
            supervisor_call(2),
        ];
        put(asm, &code)?;
    }
    Ok(())
}

/// The entry of a function, by the number of its parameters, the number of words below its return address, and its lent locals.
pub(crate) fn put_enter(
    asm: &mut Asm,
    params: usize,
    words: usize,
    lent: &[Lent],
) -> Result<(), AllocError>
    requires few { words < 255 }
    requires params_few { params ≤ 4 }
    requires inside { params ≤ words }
    requires lends { All IsSmallLend lent.now }
    requires room { HasRoom asm.old (plain (enter_code params words (map lend_of lent.now))) }
    ensures { OnOk result (asm.new ≡ with_more asm.old (plain (enter_code params words (map lend_of lent.now)))) }
{
    put_frame(asm, params, words)?;
    put_lends(asm, lent)
}

/// Takes a loan back for each lent local.
fn put_unlends(asm: &mut Asm, lent: &[Lent]) -> Result<(), AllocError>
    requires { HasRoom asm.old (plain (unlend_code (map lend_of lent.now))) }
    ensures { OnOk result (asm.new ≡ with_more asm.old (plain (unlend_code (map lend_of lent.now)))) }
{
    for _lend in lent {
        put(asm, &[supervisor_call(3)])?;
    }
    Ok(())
}

/// The result into r0, if there is one.
fn put_outcome(asm: &mut Asm, outcome: Option<usize>) -> Result<(), AllocError>
    requires near { IfSome outcome (λ k. k < 256) }
    requires room { HasRoom asm.old (plain (result_code outcome)) }
    ensures { OnOk result (asm.new ≡ with_more asm.old (plain (result_code outcome))) }
{
    match outcome {
        None => Ok(()),
        Some(register) => put(asm, &[load_home(0, register)]),
    }
}

/// The return of a function, by the number of words below its return address and its lent locals.
pub(crate) fn put_leave(
    asm: &mut Asm,
    words: usize,
    lent: &[Lent],
    outcome: Option<usize>,
) -> Result<(), AllocError>
    requires few { words < 255 }
    requires near { IfSome outcome (λ k. k < 256) }
    requires room { HasRoom asm.old (plain (leave_code words (map lend_of lent.now) outcome)) }
    ensures { OnOk result (asm.new ≡ with_more asm.old (plain (leave_code words (map lend_of lent.now) outcome))) }
{
    let pop = Instr::PushPop {
        op: 1,
        m: 0,
        p: 1,
        list: 0,
    };
    put_unlends(asm, lent)?;
    put_outcome(asm, outcome)?;
    put_add(asm, words)?;
    put(asm, &[pop])
}
