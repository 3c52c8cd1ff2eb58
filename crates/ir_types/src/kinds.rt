//! What kind a type is of.

ghost use Rattle.std.specs.Prelude.{◌≡◌};
ghost use Rattle.ir_model.specs.Types.{type_of, is_integer};

use ir_model::types::Ty;

/// Whether a type is an integer's: a value of it is a number.
pub fn is_integer(ty: &Ty) -> bool
    ensures { result ≡ is_integer (type_of ty.now) }
{
    match ty {
        Ty::U8 | Ty::U16 | Ty::U32 => true,
        Ty::Ptr(_) | Ty::Array(_, _) | Ty::Named(_) | Ty::Callee(_) => false,
    }
}
