//! The function where a firmware begins.

ghost use Rattle.std.specs.Prelude.{◌≡◌};
ghost use Rattle.ir_model.specs.Types.{Callee, none, nothing, same};
ghost use Rattle.ir_model.specs.Resolve.{row_from};
ghost use Rattle.ir_model.specs.Plain.{func_of, firmware_of};
ghost use Rattle.ir_model.specs.Typing.{has_main};

use ir_check_scopes::Scope;
use ir_check_scopes::lookup::word_named;
use ir_model::firmware::Func;

fn is_main(func: &Func) -> bool
    ensures { result ≡ same (Callee (row_from (func_of func.now).params) (func_of func.now).outcome) (Callee none nothing) }
{
    match func.params.as_slice() {
        [] => match &func.result {
            None => true,
            Some(_) => false,
        },
        [_, ..] => false,
    }
}

/// Whether there is a `main`, with neither parameters nor a result.
pub fn main_there(scope: &Scope) -> bool
    ensures { result ≡ has_main (firmware_of scope.now.firmware.now) }
{
    match word_named(scope, b"main") {
        None => false,
        Some(func) => is_main(func),
    }
}
