//! Types that instructions speak of. A type that is missing stands for u32.

ghost use Rattle.std.specs.Prelude.{◌≡◌};
ghost use Rattle.ir_model.specs.Types as types;
ghost use Rattle.ir_program.specs.Storages.{pointee_of};

use ir_model::types::Ty;

/// What a pointer of this type points to.
pub(crate) fn target(ty: Option<&Ty>) -> Option<&Ty>
    ensures { pointee_of result ≡ types.target_of (pointee_of ty.entry) }
{
    match ty {
        Some(Ty::Ptr(target)) => Some(target),
        _ => None,
    }
}

/// The type of this type's elements.
pub(crate) fn element(ty: Option<&Ty>) -> Option<&Ty>
    ensures { pointee_of result ≡ types.element_of (pointee_of ty.entry) }
{
    match ty {
        None => None,
        Some(inner) => match inner {
            Ty::Array(_, element) => Some(element),
            Ty::U8 | Ty::U16 | Ty::U32 | Ty::Ptr(_) | Ty::Named(_) | Ty::Callee(_) => Some(inner),
        },
    }
}
