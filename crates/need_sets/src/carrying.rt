//! Which values are of objects.

ghost use Rattle.std.specs.Prelude.{◌≡◌};
ghost use Rattle.ir_model.specs.Types.{type_of};
ghost use Rattle.ir_laws.specs.Sets as flows;

use ir_model::types::Ty;

/// Whether values of a type are of objects.
pub fn carries(ty: &Ty) -> bool
    ensures { result ≡ flows.carries (type_of ty.now) }
{
    match ty {
        Ty::Ptr(_) | Ty::Callee(_) => true,
        Ty::U8 | Ty::U16 | Ty::U32 | Ty::Array(_, _) | Ty::Named(_) => false,
    }
}
