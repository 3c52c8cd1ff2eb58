//! Which functions may call a function.

ghost use Rattle.std.specs.Prelude.{◌≡◌, ◌<◌, ◌&&◌, not, nat_eq, length, IfOk};
ghost use Rattle.plan_model.specs.Facts.{callers_of};
ghost use Rattle.plan_model.specs.Lists.{has};
ghost use Rattle.plan_model.specs.Needs.{need_of};

use plan_model::needs::Needs;
use std::alloc::{AllocError, Global};

/// Whether another function may call a function.
fn is_caller(needs: &Needs, caller: u32, func: u32) -> bool
    requires { caller < length needs.now.funcs }
    ensures { result ≡ (not (nat_eq caller func) && has (need_of needs.now caller).callees func) }
{
    if caller == func {
        return false;
    }
    let need = &needs.funcs.as_slice()[caller as usize];
    need.callees.as_slice().contains(&func)
}

/// The other functions that may call a function, in rising order; there are `count` functions.
///
/// # Errors
///
/// There is no memory for them.
pub(crate) fn callers(
    alloc: Global,
    needs: &Needs,
    count: u32,
    func: u32,
) -> Result<Vec<u32>, AllocError>
    requires { count ≡ length needs.now.funcs }
    ensures { IfOk result (λ callers. callers.items ≡ callers_of needs.now func) }
{
    let mut callers = Vec::new(alloc);
    for caller in 0..count {
        let calls = is_caller(needs, caller, func);
        if calls {
            callers.push(caller)?;
        }
    }
    Ok(callers)
}
