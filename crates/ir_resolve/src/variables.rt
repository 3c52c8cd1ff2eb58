//! Globals with numbers.

ghost use Rattle.std.specs.Prelude.{◌≡◌, map, IfOk};
ghost use Rattle.ir_model.specs.Plain.{global_of, firmware_of, struct_of};
ghost use Rattle.ir_model.specs.Layout.{known};
ghost use Rattle.ir_model.specs.Resolve as resolving;
ghost use Rattle.ir_program.specs.Parts.{variable_of, cell_count, global_count};
ghost use Rattle.ir_program.specs.Values.{value_of};
ghost use Rattle.ir_resolve.specs.Scopes.{scope_of, AreFew, IsSmall, AreSmallGlobals};

use crate::names::Scope;
use crate::scope::func_number;
use crate::storage::storage;
use base_lists::ListVec;
use ir_model::firmware::{Cell, Firmware, Global as GlobalDecl};
use ir_program::program::Variable;
use ir_program::value::Value;
use std::alloc::{AllocError, Global};

/// The value of a cell of a text.
fn cell_value(scope: &Scope, cell: &Cell) -> Value
    requires { AreFew scope.now }
    ensures { value_of result ≡ resolving.value_of (scope_of scope.now) cell.now }
{
    match cell {
        Cell::Word(number) => Value::Number(*number),
        Cell::Function(name) => Value::Code(func_number(scope, name)),
        Cell::Address(name) => {
            if let Some(number) = scope.periphs.number(name) {
                return Value::AtPeriph {
                    periph: number as u32,
                    offset: 0,
                };
            }
            Value::AtGlobal {
                global: scope.globals.number_or_len(name) as u32,
                offset: 0,
            }
        }
    }
}

/// What the first cells of a global hold, as many as the text gives.
fn first_values(alloc: Global, scope: &Scope, init: &[Cell]) -> Result<ListVec<Value>, AllocError>
    requires { AreFew scope.now }
    ensures { IfOk result (λ vs. map value_of vs ≡ map (resolving.value_of (scope_of scope.now)) init.now) }
{
    let mut values = Vec::new(alloc);
    for cell in init {
        values.push(cell_value(scope, cell))?;
    }
    Ok(ListVec::new(values))
}

fn variable<'a>(
    alloc: Global,
    scope: &Scope<'a>,
    global: &'a GlobalDecl,
) -> Result<Variable<'a>, AllocError>
    requires few { AreFew scope.now }
    requires small { IsSmall (known (map struct_of scope.now.layouts)) global.now.ty }
    ensures exact { IfOk result (λ v. variable_of (known (map struct_of scope.now.layouts)) v ≡ resolving.resolved_global (scope_of scope.now) (global_of global.now)) }
    ensures cells { IfOk result (λ v. v.storage.cells ≡ cell_count (resolving.resolved_global (scope_of scope.now) (global_of global.now))) }
{
    Ok(Variable {
        constant: global.constant,
        storage: storage(&scope.layouts, &global.ty),
        init: first_values(alloc, scope, global.init.as_slice())?,
    })
}

/// The globals of a firmware with numbers for their names.
pub(crate) fn variables<'a>(
    alloc: Global,
    scope: &Scope<'a>,
    firmware: &'a Firmware,
) -> Result<ListVec<Variable<'a>>, AllocError>
    requires few { AreFew scope.now }
    requires small { AreSmallGlobals (known (map struct_of scope.now.layouts)) firmware.now.globals }
    ensures exact { IfOk result (λ vs. map (variable_of (known (map struct_of scope.now.layouts))) vs ≡ map (resolving.resolved_global (scope_of scope.now)) (firmware_of firmware.now).globals) }
    ensures cells { IfOk result (λ vs. map global_count vs ≡ map cell_count (map (resolving.resolved_global (scope_of scope.now)) (firmware_of firmware.now).globals)) }
{
    let globals = firmware.globals.as_slice();
    let mut variables = Vec::new(alloc);
    for i in 0..globals.len() {
        let next = variable(alloc, scope, &globals[i])?;
        variables.push(next)?;
    }
    Ok(ListVec::new(variables))
}
