//! Lists without repeats.

ghost use Rattle.std.specs.Prelude.{◌≡◌, true, IfOk, Contains};
ghost use Rattle.plan_model.specs.Lists.{ListsExactly};

use std::alloc::AllocError;

/// The items, each once, in rising order.
///
/// # Errors
///
/// There is no memory for it.
pub fn each_once<T: Ord + Drop>(items: Vec<T>) -> Result<Vec<T>, AllocError>
    requires { (x : T) (y : T) → T.eq x y ≡ true → x ≡ y }
    ensures { IfOk result (λ once. ListsExactly T.cmp (Contains items.items) once.items) }
{
    let mut once = items;
    once.sort()?;
    once.dedup();
    Ok(once)
}
