//! The code of numbers, of copies, and of operations on two numbers.

ghost use Rattle.std.specs.Prelude.{◌≡◌, ◌≢◌, ◌<◌, [], ◌∷◌, OnOk};
ghost use Rattle.code_model.specs.Words.{plain};
ghost use Rattle.code_model.specs.Numbers as number;
ghost use Rattle.code_model.specs.Numbers.{const_code, move_code, bin_code};
ghost use Rattle.code_model.specs.Emitted.{with_more, HasRoom};
ghost use Rattle.machine_thumb.specs.Table.{InTable};
ghost use Rattle.machine_thumb.specs.Bytes.{EachInTable};
ghost use Rattle.machine_thumb.specs.declared.table.Instr.TheVariants.{Divide, DataRegister, AddSubRegister};
ghost use Rattle.ir_model.specs.declared.firmware.BinOp.TheVariants as ops;

use crate::instructions::{load_home, put, save, word_into};
use ir_model::firmware::BinOp;
use machine_thumb::Instr;
use machine_thumb_asm::Asm;
use std::alloc::AllocError;

/// A number into a register of the function.
pub(crate) fn put_const(asm: &mut Asm, to: usize, value: u32) -> Result<(), AllocError>
    requires near { to < 256 }
    requires room { HasRoom asm.old (plain (const_code to value)) }
    ensures { OnOk result (asm.new ≡ with_more asm.old (plain (const_code to value))) }
{
    let [low, high] = word_into(0, value);
    put(asm, &[low, high, save(to)])
}

/// A register of the function into another.
pub(crate) fn put_move(asm: &mut Asm, to: usize, from: usize) -> Result<(), AllocError>
    requires to_near { to < 256 }
    requires from_near { from < 256 }
    requires room { HasRoom asm.old (plain (move_code to from)) }
    ensures { OnOk result (asm.new ≡ with_more asm.old (plain (move_code to from))) }
{
    put(asm, &[load_home(0, from), save(to)])
}

/// The instruction that computes r0 from r0 and r1.
fn operation(op: BinOp) -> Instr
    requires unsigned { op ≢ ops.Urem }
    requires signed { op ≢ ops.Srem }
    ensures code { number.operation op ≡ result ∷ [] }
    ensures in_table { InTable result }
{
    let (n, m, d) = (0, 1, 0);
    match op {
        BinOp::Add => Instr::AddSubRegister { op: 0, m, n, d },
        BinOp::Sub => Instr::AddSubRegister { op: 1, m, n, d },
        BinOp::Udiv => Instr::Divide { op: 0, n, d, m },
        BinOp::Sdiv => Instr::Divide { op: 1, n, d, m },
        BinOp::And => Instr::DataRegister { op: 0, m, d },
        BinOp::Xor => Instr::DataRegister { op: 1, m, d },
        BinOp::Shl => Instr::DataRegister { op: 2, m, d },
        BinOp::Shr => Instr::DataRegister { op: 3, m, d },
        BinOp::Sar => Instr::DataRegister { op: 4, m, d },
        BinOp::Or => Instr::DataRegister { op: 12, m, d },
        BinOp::Mul => Instr::DataRegister { op: 13, m, d },
        BinOp::Bic => Instr::DataRegister { op: 14, m, d },
        BinOp::Urem | BinOp::Srem => unreachable!(),
    }
}

/// UDIV with `op` 0 or SDIV with `op` 1 of r0 by r1 into r2, MULS r2, r1, and SUBS r0, r0, r2: the remainder into r0.
fn remainder(op: u8) -> [Instr; 3]
    requires { op < 2 }
    ensures code { result ≡ Divide op 0 2 1 ∷ DataRegister 13 1 2 ∷ AddSubRegister 1 2 0 0 ∷ [] }
    ensures in_table { EachInTable result }
{
    [
        Instr::Divide {
            op,
            n: 0,
            d: 2,
            m: 1,
        },
        Instr::DataRegister { op: 13, m: 1, d: 2 },
        Instr::AddSubRegister {
            op: 1,
            m: 2,
            n: 0,
            d: 0,
        },
    ]
}

/// r0 and r1 into r0.
fn put_operation(asm: &mut Asm, op: BinOp) -> Result<(), AllocError>
    requires { HasRoom asm.old (plain (number.operation op)) }
    ensures { OnOk result (asm.new ≡ with_more asm.old (plain (number.operation op))) }
{
    match op {
        BinOp::Urem => put(asm, &remainder(0)),
        BinOp::Srem => put(asm, &remainder(1)),
        _ => put(asm, &[operation(op)]),
    }
}

/// An operation on two registers of the function into a third.
#[tactic(auto, using(crate::proofs::Putting::putting))]
pub(crate) fn put_bin(
    asm: &mut Asm,
    op: BinOp,
    to: usize,
    a: usize,
    b: usize,
) -> Result<(), AllocError>
    requires to_near { to < 256 }
    requires a_near { a < 256 }
    requires b_near { b < 256 }
    requires room { HasRoom asm.old (plain (bin_code op to a b)) }
    ensures { OnOk result (asm.new ≡ with_more asm.old (plain (bin_code op to a b))) }
{
    put(asm, &[load_home(0, a), load_home(1, b)])?;
    put_operation(asm, op)?;
    put(asm, &[save(to)])
}
