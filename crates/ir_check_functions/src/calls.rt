//! The typing rules of calls and results.

ghost use Rattle.std.specs.Prelude.{◌≡◌, Some, map};
ghost use Rattle.ir_model.specs.Types.{type_of, same_result, Callee, result_of, boxed_result_of, types_from};
ghost use Rattle.ir_model.specs.Plain.{func_of, binding_of};
ghost use Rattle.ir_model.specs.Resolve.{type_named, row_from};
ghost use Rattle.ir_model.specs.Rules as rules;

use base_names::Name;
use ir_check_scopes::FuncScope;
use ir_check_scopes::lookup::register_type;
use ir_model::firmware::{Binding, Func};
use ir_model::types::Ty;
use ir_types::equal::same_type;

fn fit_bindings(func: &FuncScope, params: &[Binding], args: &[Name]) -> bool
    ensures { result ≡ rules.fit (row_from (map binding_of params.now)) (map (type_named (func_of func.now.func.now)) args.now) }
{
    match params {
        [] => match args {
            [] => true,
            [_, ..] => false,
        },
        [param, more @ ..] => match args {
            [] => false,
            [arg, rest @ ..] => same_type(&param.ty, register_type(&*func, arg))
                && fit_bindings(func, more, rest),
        },
    }
}

fn fit_types(func: &FuncScope, params: &[Ty], args: &[Name]) -> bool
    ensures { result ≡ rules.fit (types_from (map type_of params.now)) (map (type_named (func_of func.now.func.now)) args.now) }
{
    match params {
        [] => match args {
            [] => true,
            [_, ..] => false,
        },
        [param, more @ ..] => match args {
            [] => false,
            [arg, rest @ ..] => same_type(param, register_type(&*func, arg))
                && fit_types(func, more, rest),
        },
    }
}

fn takes(func: &FuncScope, outcome: &Option<Ty>, to: &Option<Name>) -> bool
    ensures { result ≡ rules.takes_result (result_of outcome.now) (rules.kept_type (func_of func.now.func.now) to.now) }
{
    match to {
        None => true,
        Some(to) => match outcome {
            None => false,
            Some(ty) => same_type(ty, register_type(func, to)),
        },
    }
}

fn takes_boxed(func: &FuncScope, outcome: &Option<Box<Ty>>, to: &Option<Name>) -> bool
    ensures { result ≡ rules.takes_result (boxed_result_of outcome.now) (rules.kept_type (func_of func.now.func.now) to.now) }
{
    match to {
        None => true,
        Some(to) => match outcome {
            None => false,
            Some(ty) => same_type(ty, register_type(func, to)),
        },
    }
}

/// Whether a call of a function fits it.
pub fn is_call(func: &FuncScope, callee: &Func, args: &[Name], to: &Option<Name>) -> bool
    ensures { result ≡ rules.is_call (Some (Callee (row_from (func_of callee.now).params) (func_of callee.now).outcome)) (map (type_named (func_of func.now.func.now)) args.now) (rules.kept_type (func_of func.now.func.now) to.now) }
{
    fit_bindings(func, callee.params.as_slice(), args) && takes(func, &callee.result, to)
}

/// Whether a call of what has this type fits it.
pub fn is_icall(func: &FuncScope, callee: &Ty, args: &[Name], to: &Option<Name>) -> bool
    ensures { result ≡ rules.is_call (Some (type_of callee.now)) (map (type_named (func_of func.now.func.now)) args.now) (rules.kept_type (func_of func.now.func.now) to.now) }
{
    match callee {
        Ty::Callee(signature) => fit_types(func, signature.params.as_slice(), args)
            && takes_boxed(func, &signature.result, to),
        Ty::U8 => false,
        Ty::U16 => false,
        Ty::U32 => false,
        Ty::Ptr(_) => false,
        Ty::Array(_, _) => false,
        Ty::Named(_) => false,
    }
}

/// Whether a function may end with this value.
pub fn is_outcome(func: &FuncScope, value: &Option<Name>) -> bool
    ensures { result ≡ same_result (func_of func.now.func.now).outcome (rules.returned_type (func_of func.now.func.now) value.now) }
{
    match &func.func.result {
        None => value.is_none(),
        Some(ty) => match value {
            None => false,
            Some(value) => same_type(ty, register_type(func, value)),
        },
    }
}
