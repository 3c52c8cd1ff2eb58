//! How many tokens types have.

ghost use Rattle.std.specs.Prelude.{◌≡◌, ◌+◌, map, IfOk};
ghost use Rattle.ir_model.specs.Types.{type_of, types_from, boxed_result_of, result_of};
ghost use Rattle.ir_text_places.specs.Sizes as sizes;

use ir_model::types::Ty;
use std::alloc::AllocError;

/// The sum of two counts.
///
/// # Errors
///
/// It has more than 64 bits.
pub fn add(a: u64, b: u64) -> Result<u64, AllocError>
    ensures { IfOk result (λ n. n ≡ a + b) }
{
    match a.checked_add(b) {
        Some(sum) => Ok(sum),
        None => Err(AllocError),
    }
}

/// How many tokens a row of parts has with its closing mark, by those of the parts, each with what stands behind it.
pub fn closed_row_size(parts: u64) -> u64
    ensures { result ≡ sizes.closed parts }
{
    if parts == 0 { 1 } else { parts }
}

/// The tokens of a type.
#[cycle(types)]
pub fn type_size(ty: &Ty) -> Result<u64, AllocError>
    ensures { IfOk result (λ n. n ≡ sizes.type_size (type_of ty.now)) }
{
    match ty {
        Ty::U8 => Ok(1),
        Ty::U16 => Ok(1),
        Ty::U32 => Ok(1),
        Ty::Ptr(target) => add(1, type_size(target)?),
        Ty::Array(_, element) => add(3, type_size(element)?),
        Ty::Named(_) => Ok(1),
        Ty::Callee(signature) => {
            let params = row_size(signature.params.as_slice())?;
            let outcome = boxed_size(&signature.result)?;
            add(2, add(closed_row_size(params), outcome)?)
        }
    }
}

// Types, each with the token behind it.
#[cycle(types)]
fn row_size(types: &[Ty]) -> Result<u64, AllocError>
    ensures { IfOk result (λ n. n ≡ sizes.row_size (types_from (map type_of types.now))) }
{
    let mut size = 0;
    for ty in types {
        let more = add(1, type_size(ty)?)?;
        size = add(size, more)?;
    }
    Ok(size)
}

#[cycle(types)]
fn boxed_size(outcome: &Option<Box<Ty>>) -> Result<u64, AllocError>
    ensures { IfOk result (λ n. n ≡ sizes.result_size (boxed_result_of outcome.now)) }
{
    match outcome {
        None => Ok(0),
        Some(ty) => add(1, type_size(ty)?),
    }
}

/// The tokens of the result in a function's head.
pub fn result_size(outcome: &Option<Ty>) -> Result<u64, AllocError>
    ensures { IfOk result (λ n. n ≡ sizes.result_size (result_of outcome.now)) }
{
    match outcome {
        None => Ok(0),
        Some(ty) => add(1, type_size(ty)?),
    }
}
