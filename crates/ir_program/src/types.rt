//! Types of values.

ghost use Rattle.std.specs.Prelude.{◌≡◌};
ghost use Rattle.ir_model.specs.Types.{type_of};
ghost use Rattle.ir_model.specs.Resolve as resolving;
ghost use Rattle.ir_program.specs.Values.{value_of};

use crate::value::Value;
use ir_model::types::Ty;
use ir_types::kinds::is_integer;

/// What a cell or a register of this type holds before it is written: 0 or null.
pub fn zero(ty: &Ty) -> Value
    ensures { value_of result ≡ resolving.zero_of (type_of ty.now) }
{
    if is_integer(ty) {
        Value::Number(0)
    } else {
        Value::Null
    }
}
