//! The typing rules of instructions and block ends.

ghost use Rattle.std.specs.Prelude.{◌≡◌, ◌&&◌, map};
ghost use Rattle.ir_model.specs.Types.{type_of, same, U32};
ghost use Rattle.ir_model.specs.Plain.{func_of, firmware_of, funcs_of};
ghost use Rattle.ir_model.specs.Resolve.{type_named};
ghost use Rattle.ir_model.specs.Layout.{known, fields_named};
ghost use Rattle.ir_model.specs.Rules as rules;

use crate::calls::{is_call, is_icall, is_outcome};
use base_names::Name;
use ir_check_scopes::kinds::{is_port, is_register_type, points_to};
use ir_check_scopes::lookup::{
    field_named, func_named, global_named, is_function, local_named, register_type,
};
use ir_check_scopes::{FuncScope, Scope};
use ir_model::firmware::{Inst, Term};
use ir_model::types::Ty;
use ir_types::equal::same_type;
use ir_types::kinds::is_integer;

/// Whether a type is `u32`.
fn is_word(ty: &Ty) -> bool
    ensures { result ≡ same (type_of ty.now) U32 }
{
    match ty {
        Ty::U32 => true,
        Ty::U8 => false,
        Ty::U16 => false,
        Ty::Ptr(_) => false,
        Ty::Array(_, _) => false,
        Ty::Named(_) => false,
        Ty::Callee(_) => false,
    }
}

fn is_element(base: &Ty, to: &Ty) -> bool
    ensures { result ≡ rules.is_element (type_of base.now) (type_of to.now) }
{
    match base {
        Ty::Ptr(target) => match &**target {
            Ty::Array(_, element) => points_to(to, element),
            Ty::U8 => points_to(to, target),
            Ty::U16 => points_to(to, target),
            Ty::U32 => points_to(to, target),
            Ty::Ptr(_) => points_to(to, target),
            Ty::Named(_) => points_to(to, target),
            Ty::Callee(_) => points_to(to, target),
        },
        Ty::U8 => false,
        Ty::U16 => false,
        Ty::U32 => false,
        Ty::Array(_, _) => false,
        Ty::Named(_) => false,
        Ty::Callee(_) => false,
    }
}

fn holds_cell(pointer: &Ty, register: &Ty) -> bool
    ensures { result ≡ rules.holds_cell (type_of pointer.now) (type_of register.now) }
{
    match pointer {
        Ty::Ptr(target) => {
            if is_integer(target) {
                is_word(register)
            } else {
                is_register_type(target) && same_type(target, register)
            }
        }
        Ty::U8 => false,
        Ty::U16 => false,
        Ty::U32 => false,
        Ty::Array(_, _) => false,
        Ty::Named(_) => false,
        Ty::Callee(_) => false,
    }
}

fn is_field_of(scope: &Scope, of: &Name, field: &Name, to: &Ty) -> bool
    ensures { result ≡ rules.is_address (rules.field_type (fields_named (known (firmware_of scope.now.firmware.now).structs) of.now) field.now) (type_of to.now) }
{
    match field_named(scope, of, field) {
        None => false,
        Some(ty) => points_to(to, ty),
    }
}

fn is_field(scope: &Scope, base: &Ty, field: &Name, to: &Ty) -> bool
    ensures { result ≡ rules.is_field (known (firmware_of scope.now.firmware.now).structs) (type_of base.now) field.now (type_of to.now) }
{
    match base {
        Ty::Ptr(target) => match &**target {
            Ty::Named(name) => is_field_of(scope, name, field, to),
            Ty::U8 => false,
            Ty::U16 => false,
            Ty::U32 => false,
            Ty::Ptr(_) => false,
            Ty::Array(_, _) => false,
            Ty::Callee(_) => false,
        },
        Ty::U8 => false,
        Ty::U16 => false,
        Ty::U32 => false,
        Ty::Array(_, _) => false,
        Ty::Named(_) => false,
        Ty::Callee(_) => false,
    }
}

fn is_address_of(scope: &Scope, func: &FuncScope, name: &Name, to: &Ty) -> bool
    ensures { result ≡ rules.is_address_of (firmware_of scope.now.firmware.now) (func_of func.now.func.now) name.now (type_of to.now) }
{
    if let Some(ty) = local_named(func, name) {
        return points_to(to, ty);
    }
    if scope.periphs.has(name) {
        return is_port(to);
    }
    match global_named(scope, name) {
        None => false,
        Some(ty) => points_to(to, ty),
    }
}

fn is_number(func: &FuncScope, name: &Name) -> bool
    ensures { result ≡ rules.is_number (func_of func.now.func.now) name.now }
{
    is_word(register_type(func, name))
}

fn are_numbers(func: &FuncScope, a: &Name, b: &Name, c: &Name) -> bool
    ensures { result ≡ rules.is_number (func_of func.now.func.now) a.now && (rules.is_number (func_of func.now.func.now) b.now && rules.is_number (func_of func.now.func.now) c.now) }
{
    is_number(func, a) && is_number(func, b) && is_number(func, c)
}

fn is_named_call(
    scope: &Scope,
    func: &FuncScope,
    callee: &Name,
    args: &[Name],
    to: &Option<Name>,
) -> bool
    ensures { result ≡ rules.is_call (rules.func_type (funcs_of (firmware_of scope.now.firmware.now)) callee.now) (map (type_named (func_of func.now.func.now)) args.now) (rules.kept_type (func_of func.now.func.now) to.now) }
{
    match func_named(scope, callee) {
        None => false,
        Some(callee) => is_call(func, callee, args, to),
    }
}

/// Whether an instruction's types fit.
#[tactic(auto, unfolding(ir_model::specs::Rules::inst_fits))]
pub fn inst_fits(scope: &Scope, func: &FuncScope, inst: &Inst) -> bool
    ensures { result ≡ rules.inst_fits (firmware_of scope.now.firmware.now) (func_of func.now.func.now) inst.now }
{
    match inst {
        Inst::Const { to, .. } => is_number(func, to),
        Inst::Move { to, from } => same_type(register_type(func, to), register_type(func, from)),
        Inst::Bin { to, a, b, .. } => are_numbers(func, to, a, b),
        Inst::Cmp { to, a, b, .. } => are_numbers(func, to, a, b),
        Inst::Addr { to, of } => is_address_of(scope, func, of, register_type(func, to)),
        Inst::FAddr { to, of } => is_function(scope, of, register_type(func, to)),
        Inst::Elem { to, base, index } => is_number(func, index)
            && is_element(register_type(func, base), register_type(func, to)),
        Inst::Field { to, base, field } => is_field(
            scope,
            register_type(func, base),
            field,
            register_type(func, to),
        ),
        Inst::Load { to, from } => holds_cell(register_type(func, from), register_type(func, to)),
        Inst::Store { to, from } => holds_cell(register_type(func, to), register_type(func, from)),
        Inst::Call {
            to,
            func: callee,
            args,
        } => is_named_call(scope, func, callee, args.as_slice(), to),
        Inst::ICall {
            to,
            func: callee,
            args,
        } => is_icall(func, register_type(func, callee), args.as_slice(), to),
    }
}

/// Whether the types of a block's end fit.
#[tactic(auto, unfolding(ir_model::specs::Rules::term_fits))]
pub fn term_fits(func: &FuncScope, term: &Term) -> bool
    ensures { result ≡ rules.term_fits (func_of func.now.func.now) term.now }
{
    match term {
        Term::Jump(_) => true,
        Term::Branch { on, .. } => is_number(func, on),
        Term::Ret(value) => is_outcome(func, value),
    }
}
