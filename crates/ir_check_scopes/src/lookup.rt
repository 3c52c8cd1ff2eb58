//! What names stand for.

ghost use Rattle.std.specs.Prelude.{◌≡◌, Some, None, MatchOption, IfSome, is_some};
ghost use Rattle.ir_model.specs.Types.{type_of, Callee};
ghost use Rattle.ir_model.specs.Plain.{func_of, firmware_of, funcs_of, names_of};
ghost use Rattle.ir_model.specs.Layout.{known, fields_named};
ghost use Rattle.base_names.specs.Numbers.{has};
ghost use Rattle.ir_model.specs.Resolve.{type_named, row_from};
ghost use Rattle.ir_model.specs.Rules.{binding_type, global_type, func_type, field_type, is_type};

use crate::scope::{FuncScope, Scope};
use base_names::Name;
use ir_model::firmware::Func;
use ir_model::types::Ty;
use ir_types::callee::is_callee;

/// The type of a register; `u32` for a name that no register has.
pub fn register_type<'s>(scope: &'s FuncScope<'s>, name: &Name) -> &'s Ty
    ensures { type_of result.now ≡ type_named (func_of scope.now.func.now) name.now }
{
    let Some(place) = scope.registers.number(name) else {
        return &scope.number;
    };
    let params = scope.func.params.as_slice();
    if place < params.len() {
        return &params[place].ty;
    }
    let regs = scope.func.regs.as_slice();
    &regs[place - params.len()].ty
}

/// The type of a local.
pub fn local_named<'s>(scope: &'s FuncScope<'s>, name: &Name) -> Option<&'s Ty>
    ensures there { is_some result ≡ has (names_of (func_of scope.now.func.now).locals) name.now }
    ensures ty { IfSome result (λ t. binding_type (func_of scope.now.func.now).locals name.now ≡ Some (type_of t.now)) }
{
    let Some(place) = scope.locals.number(name) else {
        return None;
    };
    Some(&scope.func.locals.as_slice()[place].ty)
}

/// The type of a global.
pub fn global_named<'s>(scope: &'s Scope<'s>, name: &Name) -> Option<&'s Ty>
    ensures { MatchOption result (global_type (firmware_of scope.now.firmware.now).globals name.now ≡ None) (λ t. global_type (firmware_of scope.now.firmware.now).globals name.now ≡ Some (type_of t.now)) }
{
    let Some(place) = scope.globals.number(name) else {
        return None;
    };
    Some(&scope.firmware.globals.as_slice()[place].ty)
}

/// A function.
#[tactic(auto, using(crate::proofs::LentFuncs::funcs_counted))]
pub fn func_named<'s>(scope: &'s Scope<'s>, name: &Name) -> Option<&'s Func>
    ensures { MatchOption result (func_type (funcs_of (firmware_of scope.now.firmware.now)) name.now ≡ None) (λ f. func_type (funcs_of (firmware_of scope.now.firmware.now)) name.now ≡ Some (Callee (row_from (func_of f.now).params) (func_of f.now).outcome)) }
{
    let Some(place) = scope.funcs.number(name) else {
        return None;
    };
    Some(scope.bodies.as_slice()[place])
}

/// A function of a given word.
#[tactic(auto, using(crate::proofs::LentFuncs::funcs_counted))]
pub fn word_named<'s>(scope: &'s Scope<'s>, word: &[u8]) -> Option<&'s Func>
    ensures { MatchOption result (func_type (funcs_of (firmware_of scope.now.firmware.now)) word.now ≡ None) (λ f. func_type (funcs_of (firmware_of scope.now.firmware.now)) word.now ≡ Some (Callee (row_from (func_of f.now).params) (func_of f.now).outcome)) }
{
    let Some(place) = scope.funcs.find(word) else {
        return None;
    };
    Some(scope.bodies.as_slice()[place])
}

/// The type of a struct's field.
pub fn field_named<'s>(scope: &'s Scope<'s>, of: &Name, field: &Name) -> Option<&'s Ty>
    ensures { MatchOption result (field_type (fields_named (known (firmware_of scope.now.firmware.now).structs) of.now) field.now ≡ None) (λ t. field_type (fields_named (known (firmware_of scope.now.firmware.now).structs) of.now) field.now ≡ Some (type_of t.now)) }
{
    match scope.layouts.field(of, field) {
        None => None,
        Some(field) => Some(field.ty),
    }
}

/// Whether a type is that of a function of this name.
pub fn is_function(scope: &Scope, name: &Name, to: &Ty) -> bool
    ensures { result ≡ is_type (func_type (funcs_of (firmware_of scope.now.firmware.now)) name.now) (type_of to.now) }
{
    match func_named(scope, name) {
        None => false,
        Some(func) => is_callee(func, to),
    }
}
