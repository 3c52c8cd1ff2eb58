//! Whether a function's address is of a type.

ghost use Rattle.std.specs.Prelude.{◌≡◌, ◌↔◌, map, IsTrue};
ghost use Rattle.ir_model.specs.Types.{type_of, same, same_row, same_result, Callee, result_of, boxed_result_of, types_from};
ghost use Rattle.ir_model.specs.Plain.{func_of, binding_of};
ghost use Rattle.ir_model.specs.Resolve.{row_from};

use crate::equal::same_type;
use ir_model::firmware::{Binding, Func};
use ir_model::types::Ty;

fn is_row(params: &[Binding], types: &[Ty]) -> bool
    ensures { result ≡ same_row (row_from (map binding_of params.now)) (types_from (map type_of types.now)) }
{
    match params {
        [] => match types {
            [] => true,
            [_, ..] => false,
        },
        [param, more @ ..] => match types {
            [] => false,
            [ty, rest @ ..] => same_type(&param.ty, ty) && is_row(more, rest),
        },
    }
}

fn is_result(outcome: &Option<Ty>, other: &Option<Box<Ty>>) -> bool
    ensures { result ≡ same_result (result_of outcome.now) (boxed_result_of other.now) }
{
    match outcome {
        None => other.is_none(),
        Some(ty) => match other {
            None => false,
            Some(other) => same_type(ty, other),
        },
    }
}

/// Whether a type is that of a function's address.
pub fn is_callee(func: &Func, ty: &Ty) -> bool
    ensures { result ≡ same (Callee (row_from (func_of func.now).params) (func_of func.now).outcome) (type_of ty.now) }
{
    match ty {
        Ty::Callee(signature) => is_row(func.params.as_slice(), signature.params.as_slice())
            && is_result(&func.result, &signature.result),
        Ty::U8 => false,
        Ty::U16 => false,
        Ty::U32 => false,
        Ty::Ptr(_) => false,
        Ty::Array(_, _) => false,
        Ty::Named(_) => false,
    }
}

/// Whether a function's address is of a type.
pub fn has_type(func: &Func, ty: &Ty) -> bool
    ensures { IsTrue result ↔ (Callee (row_from (func_of func.now).params) (func_of func.now).outcome ≡ type_of ty.now) }
{
    is_callee(func, ty)
}
