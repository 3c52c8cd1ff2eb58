//! What kind a type is of, and what a pointer points to.

ghost use Rattle.std.specs.Prelude.{◌≡◌};
ghost use Rattle.ir_model.specs.Types.{type_of, same, Pointer, is_register_type};
ghost use Rattle.ir_model.specs.Rules as rules;

use ir_model::types::Ty;
use ir_types::equal::same_type;
use ir_types::kinds::is_integer;

/// Whether a register may have a type.
pub fn is_register_type(ty: &Ty) -> bool
    ensures { result ≡ is_register_type (type_of ty.now) }
{
    match ty {
        Ty::U32 => true,
        Ty::Ptr(_) => true,
        Ty::Callee(_) => true,
        Ty::U8 => false,
        Ty::U16 => false,
        Ty::Array(_, _) => false,
        Ty::Named(_) => false,
    }
}

/// Whether a type is that of pointers to a type.
pub fn points_to(pointer: &Ty, target: &Ty) -> bool
    ensures { result ≡ same (Pointer (type_of target.now)) (type_of pointer.now) }
{
    match pointer {
        Ty::Ptr(ty) => same_type(target, ty),
        Ty::U8 => false,
        Ty::U16 => false,
        Ty::U32 => false,
        Ty::Array(_, _) => false,
        Ty::Named(_) => false,
        Ty::Callee(_) => false,
    }
}

/// Whether a type is that of pointers to integers.
pub fn is_port(pointer: &Ty) -> bool
    ensures { result ≡ rules.is_port (type_of pointer.now) }
{
    match pointer {
        Ty::Ptr(ty) => is_integer(ty),
        Ty::U8 => false,
        Ty::U16 => false,
        Ty::U32 => false,
        Ty::Array(_, _) => false,
        Ty::Named(_) => false,
        Ty::Callee(_) => false,
    }
}
