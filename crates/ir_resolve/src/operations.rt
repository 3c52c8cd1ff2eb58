//! Instructions and block ends with numbers.

ghost use Rattle.std.specs.Prelude.{◌≡◌, map, IfOk};
ghost use Rattle.ir_model.specs.Resolve as resolving;
ghost use Rattle.ir_program.specs.Parts.{operation_of, exit_of, sequence_of};
ghost use Rattle.ir_resolve.specs.Scopes.{scope_of, named_func, AreFuncNames, AreFew};

use crate::lookup::{element, target};
use crate::names::{FuncNames, Scope};
use crate::scope::{
    field_offset, func_number, label_number, named_target, register_number, register_type,
};
use base_lists::ListVec;
use base_names::Name;
use ir_model::firmware::{Block, Inst, Term};
use ir_program::program::{Exit, Operation, Sequence};
use std::alloc::{AllocError, Global};

fn optional_number(func: &FuncNames, name: &Option<Name>) -> Option<usize>
    requires { AreFuncNames func.now }
    ensures { result ≡ resolving.optional (resolving.register_number (named_func func.now)) name.now }
{
    match name {
        Some(name) => Some(register_number(func, name)),
        None => None,
    }
}

fn register_numbers(
    alloc: Global,
    func: &FuncNames,
    names: &[Name],
) -> Result<ListVec<usize>, AllocError>
    requires { AreFuncNames func.now }
    ensures { IfOk result (λ ns. ns ≡ map (resolving.register_number (named_func func.now)) names.now) }
{
    let mut numbers = Vec::new(alloc);
    for name in names {
        numbers.push(register_number(func, name))?;
    }
    Ok(ListVec::new(numbers))
}

/// An instruction of a function with numbers for its names.
fn operation<'a>(
    alloc: Global,
    scope: &Scope<'a>,
    func: &FuncNames<'a>,
    inst: &Inst,
) -> Result<Operation<'a>, AllocError>
    requires few { AreFew scope.now }
    requires names { AreFuncNames func.now }
    ensures { IfOk result (λ o. operation_of (scope_of scope.now).known o ≡ resolving.resolved_inst (scope_of scope.now) (named_func func.now) inst.now) }
{
    match inst {
        Inst::Const { to, value } => Ok(Operation::Const {
            to: register_number(func, to),
            value: *value,
        }),
        Inst::Move { to, from } => Ok(Operation::Move {
            to: register_number(func, to),
            from: register_number(func, from),
        }),
        Inst::Bin { op, to, a, b } => Ok(Operation::Bin {
            op: *op,
            to: register_number(func, to),
            a: register_number(func, a),
            b: register_number(func, b),
        }),
        Inst::Cmp { op, to, a, b } => Ok(Operation::Cmp {
            op: *op,
            to: register_number(func, to),
            a: register_number(func, a),
            b: register_number(func, b),
        }),
        Inst::Addr { to, of } => Ok(Operation::Addr {
            to: register_number(func, to),
            of: named_target(scope, func, of),
        }),
        Inst::FAddr { to, of } => Ok(Operation::FAddr {
            to: register_number(func, to),
            func: func_number(scope, of),
        }),
        Inst::Elem { to, base, index } => Ok(Operation::Elem {
            to: register_number(func, to),
            base: register_number(func, base),
            index: register_number(func, index),
            element: element(target(register_type(func, base))),
        }),
        Inst::Field { to, base, field } => Ok(Operation::Field {
            to: register_number(func, to),
            base: register_number(func, base),
            offset: field_offset(scope, target(register_type(func, base)), field),
        }),
        Inst::Load { to, from } => Ok(Operation::Load {
            to: register_number(func, to),
            from: register_number(func, from),
            ty: target(register_type(func, from)),
        }),
        Inst::Store { to, from } => Ok(Operation::Store {
            to: register_number(func, to),
            from: register_number(func, from),
            ty: target(register_type(func, to)),
        }),
        Inst::Call {
            to,
            func: callee,
            args,
        } => Ok(Operation::Call {
            to: optional_number(func, to),
            func: func_number(scope, callee),
            args: register_numbers(alloc, func, args.as_slice())?,
        }),
        Inst::ICall {
            to,
            func: callee,
            args,
        } => Ok(Operation::ICall {
            to: optional_number(func, to),
            func: register_number(func, callee),
            args: register_numbers(alloc, func, args.as_slice())?,
        }),
    }
}

/// A block's end with numbers for its names.
fn exit(func: &FuncNames, term: &Term) -> Exit
    requires { AreFuncNames func.now }
    ensures { exit_of result ≡ resolving.resolved_term (named_func func.now) term.now }
{
    match term {
        Term::Jump(block) => Exit::Jump(label_number(func, block)),
        Term::Branch { on, yes, no } => Exit::Branch {
            on: register_number(func, on),
            yes: label_number(func, yes),
            no: label_number(func, no),
        },
        Term::Ret(value) => Exit::Ret(optional_number(func, value)),
    }
}

fn operations<'a>(
    alloc: Global,
    scope: &Scope<'a>,
    func: &FuncNames<'a>,
    insts: &[Inst],
) -> Result<ListVec<Operation<'a>>, AllocError>
    requires few { AreFew scope.now }
    requires names { AreFuncNames func.now }
    ensures { IfOk result (λ os. map (operation_of (scope_of scope.now).known) os ≡ map (resolving.resolved_inst (scope_of scope.now) (named_func func.now)) insts.now) }
{
    let mut operations = Vec::new(alloc);
    for i in 0..insts.len() {
        let next = operation(alloc, scope, func, &insts[i])?;
        operations.push(next)?;
    }
    Ok(ListVec::new(operations))
}

/// The blocks of a function with numbers for their names.
pub(crate) fn sequences<'a>(
    alloc: Global,
    scope: &Scope<'a>,
    func: &FuncNames<'a>,
) -> Result<ListVec<Sequence<'a>>, AllocError>
    requires few { AreFew scope.now }
    requires names { AreFuncNames func.now }
    ensures { IfOk result (λ ss. map (sequence_of (scope_of scope.now).known) ss ≡ map (resolving.resolved_block (scope_of scope.now) (named_func func.now)) func.now.source.now.blocks) }
{
    let blocks: &[Block] = func.source.blocks.as_slice();
    let mut sequences = Vec::new(alloc);
    for i in 0..blocks.len() {
        let operations = operations(alloc, scope, func, blocks[i].insts.as_slice())?;
        let exit = exit(func, &blocks[i].term);
        sequences.push(Sequence { operations, exit })?;
    }
    Ok(ListVec::new(sequences))
}
