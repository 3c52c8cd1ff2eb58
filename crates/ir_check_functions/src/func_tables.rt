//! The tables of a function.

ghost use Rattle.std.specs.Prelude.{◌≡◌, IfOk};
ghost use Rattle.ir_model.specs.Plain.{func_of};
ghost use Rattle.ir_model.specs.Resolve.{labels_of};

use ir_check_scopes::FuncScope;
use ir_model::firmware::Func;
use ir_model::types::Ty;
use ir_names::Names;
use ir_names::firmware_names::{local_names, register_names};
use std::alloc::{AllocError, Global};

/// The tables of a function that has these labels.
pub fn func_scope<'a>(
    alloc: Global,
    func: &'a Func,
    labels: Names<'a>,
) -> Result<FuncScope<'a>, AllocError>
    requires { labels ≡ labels_of (func_of func.now) }
    ensures { IfOk result (λ s. s.func.now ≡ func.now) }
{
    let registers = register_names(alloc, func)?;
    let locals = local_names(alloc, func)?;
    Ok(FuncScope {
        func,
        registers,
        locals,
        labels,
        number: Ty::U32,
    })
}
