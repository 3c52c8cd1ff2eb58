//! Equal types.

ghost use Rattle.std.specs.Prelude.{◌≡◌, ◌↔◌, ◌<◌, map, IsTrue};
ghost use Rattle.ir_model.specs.Types.{same, same_result, same_row, types_from, type_of, boxed_result_of};

use ir_model::types::Ty;

/// Whether two types are equal, structs by their names.
#[tactic(auto, using(ir_model::proofs::SameTypes::same_exactly))]
pub fn same_type(a: &Ty, b: &Ty) -> bool
    ensures tested { result ≡ same (type_of a.now) (type_of b.now) }
    ensures equal { IsTrue result ↔ (type_of a.now ≡ type_of b.now) }
{
    is_same(a, b)
}

#[cycle(equal)]
fn is_same(a: &Ty, b: &Ty) -> bool
    ensures { result ≡ same (type_of a.now) (type_of b.now) }
{
    match a {
        Ty::U8 => match b {
            Ty::U8 => true,
            Ty::U16 | Ty::U32 | Ty::Ptr(_) | Ty::Array(_, _) | Ty::Named(_) | Ty::Callee(_) =>
                false,
        },
        Ty::U16 => match b {
            Ty::U16 => true,
            Ty::U8 | Ty::U32 | Ty::Ptr(_) | Ty::Array(_, _) | Ty::Named(_) | Ty::Callee(_) => false,
        },
        Ty::U32 => match b {
            Ty::U32 => true,
            Ty::U8 | Ty::U16 | Ty::Ptr(_) | Ty::Array(_, _) | Ty::Named(_) | Ty::Callee(_) => false,
        },
        Ty::Ptr(x) => match b {
            Ty::Ptr(y) => is_same(x, y),
            Ty::U8 | Ty::U16 | Ty::U32 | Ty::Array(_, _) | Ty::Named(_) | Ty::Callee(_) => false,
        },
        Ty::Array(n, x) => match b {
            Ty::Array(m, y) => *n == *m && is_same(x, y),
            Ty::U8 | Ty::U16 | Ty::U32 | Ty::Ptr(_) | Ty::Named(_) | Ty::Callee(_) => false,
        },
        Ty::Named(x) => match b {
            Ty::Named(y) => x.same(y),
            Ty::U8 | Ty::U16 | Ty::U32 | Ty::Ptr(_) | Ty::Array(_, _) | Ty::Callee(_) => false,
        },
        Ty::Callee(s) => match b {
            Ty::Callee(t) => is_same_row(s.params.as_slice(), t.params.as_slice())
                && is_same_result(&s.result, &t.result),
            Ty::U8 | Ty::U16 | Ty::U32 | Ty::Ptr(_) | Ty::Array(_, _) | Ty::Named(_) => false,
        },
    }
}

#[cycle(equal)]
fn is_same_row(a: &[Ty], b: &[Ty]) -> bool
    ensures { result ≡ same_row (types_from (map type_of a.now)) (types_from (map type_of b.now)) }
{
    if a.len() != b.len() {
        return false;
    }
    for i in 0..a.len() {
        if !is_same(&a[i], &b[i]) {
            return false;
        }
    }
    true
}

#[cycle(equal)]
fn is_same_result(a: &Option<Box<Ty>>, b: &Option<Box<Ty>>) -> bool
    ensures { result ≡ same_result (boxed_result_of a.now) (boxed_result_of b.now) }
{
    match (a, b) {
        (None, None) => true,
        (Some(x), Some(y)) => is_same(x, y),
        _ => false,
    }
}
