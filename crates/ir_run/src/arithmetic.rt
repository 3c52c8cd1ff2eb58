//! Operations on numbers.

ghost use Rattle.std.specs.Prelude.{◌≡◌};
ghost use Rattle.ir_model.specs.Step as step;
ghost use Rattle.ir_program.specs.Values.{value_of};

use base_words::operations;
use ir_model::firmware::{BinOp, CmpOp};
use ir_program::value::Value;

/// What an operation makes of two numbers.
#[tactic(auto, unfolding(ir_model::specs::Step::binary))]
pub fn binary(op: BinOp, a: u32, b: u32) -> u32
    ensures { result ≡ step.binary op a b }
{
    match op {
        BinOp::Add => operations::add(a, b),
        BinOp::Sub => operations::subtract(a, b),
        BinOp::Mul => operations::multiply(a, b),
        BinOp::Udiv => operations::unsigned_quotient(a, b),
        BinOp::Sdiv => operations::signed_quotient(a, b),
        BinOp::Urem => operations::unsigned_remainder(a, b),
        BinOp::Srem => operations::signed_remainder(a, b),
        BinOp::And => a & b,
        BinOp::Or => a | b,
        BinOp::Xor => a ^ b,
        BinOp::Bic => operations::bit_clear(a, b),
        BinOp::Shl => operations::shift_left(a, b),
        BinOp::Shr => operations::shift_right(a, b),
        BinOp::Sar => operations::shift_right_signed(a, b),
    }
}

/// Whether a comparison holds of two numbers.
#[tactic(auto, unfolding(ir_model::specs::Step::compared))]
pub fn comparison_holds(op: CmpOp, a: u32, b: u32) -> bool
    ensures { result ≡ step.compared op a b }
{
    match op {
        CmpOp::Eq => a == b,
        CmpOp::Ne => a != b,
        CmpOp::Ult => a < b,
        CmpOp::Ule => a <= b,
        CmpOp::Slt => operations::signed_less(a, b),
        CmpOp::Sle => operations::signed_at_most(a, b),
    }
}

/// 1 for what holds, else 0.
pub fn bit(holds: bool) -> u32
    ensures { result ≡ step.bit holds }
{
    if holds { 1 } else { 0 }
}

/// The number that a value is; 0 for another value.
pub fn number_in(value: Value) -> u32
    ensures { result ≡ step.number_in (value_of value) }
{
    match value {
        Value::Number(number) => number,
        Value::Code(_)
        | Value::Null
        | Value::AtGlobal { .. }
        | Value::AtPeriph { .. }
        | Value::AtLocal { .. } => 0,
    }
}
