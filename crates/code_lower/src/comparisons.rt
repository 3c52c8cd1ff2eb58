//! The code of comparisons.

ghost use Rattle.std.specs.Prelude.{◌≡◌, ◌<◌, OnOk};
ghost use Rattle.code_model.specs.Words.{plain};
ghost use Rattle.code_model.specs.Comparisons as comparison;
ghost use Rattle.code_model.specs.Comparisons.{cmp_code};
ghost use Rattle.code_model.specs.Emitted.{with_more, HasRoom};

use crate::instructions::{byte_into, load_home, put, save};
use ir_model::firmware::CmpOp;
use machine_thumb::Instr;
use machine_thumb_asm::Asm;
use std::alloc::AllocError;

/// The condition of a branch (A7.3).
fn condition(op: CmpOp) -> u8
    ensures exact { result ≡ comparison.condition op }
    ensures there { result < 14 }
{
    match op {
        CmpOp::Eq => 0,
        CmpOp::Ne => 1,
        CmpOp::Ult => 3,
        CmpOp::Ule => 9,
        CmpOp::Slt => 11,
        CmpOp::Sle => 13,
    }
}

/// The bit of a comparison into a register of the function.
pub(crate) fn put_cmp(
    asm: &mut Asm,
    op: CmpOp,
    to: usize,
    a: usize,
    b: usize,
) -> Result<(), AllocError>
    requires to_near { to < 256 }
    requires a_near { a < 256 }
    requires b_near { b < 256 }
    requires room { HasRoom asm.old (plain (cmp_code op to a b)) }
    ensures { OnOk result (asm.new ≡ with_more asm.old (plain (cmp_code op to a b))) }
{
    let over_two = Instr::BranchConditional {
        cond: condition(op),
        offset: 2,
    };
    let over_one = Instr::CallBranch {
        op: 1,
        imm8: 0,
        offset: 0,
    };
    put(
        asm,
        &[
            load_home(0, a),
            load_home(1, b),
            Instr::DataRegister { op: 10, m: 1, d: 0 },
            over_two,
            byte_into(0, 0),
            over_one,
            byte_into(0, 1),
            save(to),
        ],
    )
}
