//! The rules that instructions ask for.

ghost use Rattle.std.specs.Prelude.{◌≡◌, ◌<◌, ◌∷◌, [], length, OnOk, IfOk};
ghost use Rattle.ir_model.specs.Objects.{object_by};
ghost use Rattle.std.specs.List.{flat_map};
ghost use Rattle.ir_model.specs.Resolved as plain;
ghost use Rattle.ir_laws.specs.Sets as flows;
ghost use Rattle.ir_program.specs.Parts.{operation_of, target_of, exit_of};
ghost use Rattle.ir_program.specs.Seen.{program_of, known_of};
ghost use Rattle.ir_program.specs.Storages.{pointee_of};
ghost use Rattle.plan_model.specs.Lists.{numbers_below};
ghost use Rattle.need_sets.specs.Demands.{HasObject, PassesOn, LoadsTo, StoresFrom, where_carried, inst_demands, end_demands, argument_passed, result_passed, argument_given, result_taken};
ghost use Rattle.need_sets.specs.Gathered.{Gathers};

use crate::gather::register;
use crate::generator::Generator;
use ir_model::object::ObjId;
use ir_model::types::Ty;
use ir_program::program::{Exit, Operation, Target};
use need_sets::{Node, Rules, carries};
use std::alloc::AllocError;

/// Whether values of a type that may be missing are of objects.
fn cell_carries(ty: Option<&Ty>) -> bool
    ensures { result ≡ flows.carries (pointee_of ty.entry) }
{
    match ty {
        Some(ty) => carries(ty),
        None => false,
    }
}

/// What `addr` names in a function.
fn named(func: u32, of: Target) -> ObjId
    ensures { object_by result ≡ flows.named_object func (target_of of) }
{
    match of {
        Target::Global(global) => ObjId::Global(global),
        Target::Periph(periph) => ObjId::Periph(periph),
        Target::Local(local) => ObjId::Local {
            func,
            local: u32::from(local),
        },
    }
}

impl<'a> Generator<'a> {
    fn put_named(
        &self,
        rules: &mut Rules<'a>,
        func: u32,
        to: usize,
        object: &ObjId,
    ) -> Result<(), AllocError>
        ensures { OnOk result (Gathers self.now.numbering rules.old rules.new (HasObject (flows.Register func to) (object_by object.now) ∷ [])) }
    {
        self.has(rules, &register(func, to)?, object)
    }

    fn put_passed(
        &self,
        rules: &mut Rules<'a>,
        func: u32,
        carried: bool,
        from: usize,
        to: usize,
    ) -> Result<(), AllocError>
        ensures { OnOk result (Gathers self.now.numbering rules.old rules.new (where_carried carried (PassesOn (flows.Register func from) (flows.Register func to)))) }
    {
        self.passes(rules, carried, &register(func, from)?, &register(func, to)?)
    }

    fn put_load(
        &self,
        rules: &mut Rules<'a>,
        func: u32,
        carried: bool,
        to: usize,
        from: usize,
    ) -> Result<(), AllocError>
        ensures { OnOk result (Gathers self.now.numbering rules.old rules.new (where_carried carried (LoadsTo (flows.Register func from) (flows.Register func to)))) }
    {
        self.loads(rules, carried, &register(func, from)?, &register(func, to)?)
    }

    fn put_store(
        &self,
        rules: &mut Rules<'a>,
        func: u32,
        carried: bool,
        to: usize,
        from: usize,
    ) -> Result<(), AllocError>
        ensures { OnOk result (Gathers self.now.numbering rules.old rules.new (where_carried carried (StoresFrom (flows.Register func to) (flows.Register func from)))) }
    {
        self.stores(rules, carried, &register(func, to)?, &register(func, from)?)
    }

    fn put_argument(
        &self,
        rules: &mut Rules<'a>,
        func: u32,
        callee: u32,
        args: &[usize],
        place: u32,
    ) -> Result<(), AllocError>
        requires { place < length args.now }
        ensures { OnOk result (Gathers self.now.numbering rules.old rules.new (argument_passed (program_of self.now.program.now) func callee args.now place)) }
    {
        let carried = self.carries_at(callee, place as usize);
        let from = register(func, args[place as usize])?;
        let to = Node::Reg {
            func: callee,
            reg: place,
        };
        self.passes(rules, carried, &from, &to)
    }

    fn put_result(
        &self,
        rules: &mut Rules<'a>,
        func: u32,
        callee: u32,
        to: Option<usize>,
    ) -> Result<(), AllocError>
        ensures { OnOk result (Gathers self.now.numbering rules.old rules.new (result_passed (program_of self.now.program.now) func callee to)) }
    {
        let Some(to) = to else {
            return Ok(());
        };
        let carried = self.carries_at(func, to);
        self.passes(rules, carried, &Node::Result(callee), &register(func, to)?)
    }

    fn put_arguments(
        &self,
        rules: &mut Rules<'a>,
        func: u32,
        callee: u32,
        args: &[usize],
    ) -> Result<(), AllocError>
        ensures { OnOk result (Gathers self.now.numbering rules.old rules.new (flat_map (argument_passed (program_of self.now.program.now) func callee args.now) (numbers_below (length args.now)))) }
    {
        for place in 0..count_of(args)? {
            self.put_argument(rules, func, callee, args, place)?;
        }
        Ok(())
    }

    fn put_given(
        &self,
        rules: &mut Rules<'a>,
        func: u32,
        pointer: usize,
        args: &[usize],
        place: u32,
    ) -> Result<(), AllocError>
        requires { place < length args.now }
        ensures { OnOk result (Gathers self.now.numbering rules.old rules.new (argument_given (program_of self.now.program.now) func pointer args.now place)) }
    {
        let Some(ty) = self.type_at(func, pointer) else {
            return Err(AllocError);
        };
        let from = register(func, args[place as usize])?;
        self.gives(rules, &register(func, pointer)?, ty, &from, place)
    }

    fn put_all_given(
        &self,
        rules: &mut Rules<'a>,
        func: u32,
        pointer: usize,
        args: &[usize],
    ) -> Result<(), AllocError>
        ensures { OnOk result (Gathers self.now.numbering rules.old rules.new (flat_map (argument_given (program_of self.now.program.now) func pointer args.now) (numbers_below (length args.now)))) }
    {
        for place in 0..count_of(args)? {
            self.put_given(rules, func, pointer, args, place)?;
        }
        Ok(())
    }

    fn put_taken(
        &self,
        rules: &mut Rules<'a>,
        func: u32,
        pointer: usize,
        to: Option<usize>,
    ) -> Result<(), AllocError>
        ensures { OnOk result (Gathers self.now.numbering rules.old rules.new (result_taken (program_of self.now.program.now) func pointer to)) }
    {
        let Some(to) = to else {
            return Ok(());
        };
        let Some(ty) = self.type_at(func, pointer) else {
            return Err(AllocError);
        };
        let carried = self.carries_at(func, to);
        self.takes(
            rules,
            carried,
            &register(func, pointer)?,
            ty,
            &register(func, to)?,
        )
    }

    fn put_call(
        &self,
        rules: &mut Rules<'a>,
        func: u32,
        to: Option<usize>,
        callee: u32,
        args: &[usize],
    ) -> Result<(), AllocError>
        ensures { OnOk result (Gathers self.now.numbering rules.old rules.new (inst_demands (program_of self.now.program.now) func (plain.Call to callee args.now))) }
    {
        self.put_arguments(rules, func, callee, args)?;
        self.put_result(rules, func, callee, to)
    }

    fn put_indirect(
        &self,
        rules: &mut Rules<'a>,
        func: u32,
        to: Option<usize>,
        pointer: usize,
        args: &[usize],
    ) -> Result<(), AllocError>
        ensures { OnOk result (Gathers self.now.numbering rules.old rules.new (inst_demands (program_of self.now.program.now) func (plain.ICall to pointer args.now))) }
    {
        self.put_all_given(rules, func, pointer, args)?;
        self.put_taken(rules, func, pointer, to)
    }

    /// What an instruction asks.
    pub(crate) fn put_operation(
        &self,
        rules: &mut Rules<'a>,
        func: u32,
        operation: &Operation<'a>,
    ) -> Result<(), AllocError>
        ensures { OnOk result (Gathers self.now.numbering rules.old rules.new (inst_demands (program_of self.now.program.now) func (operation_of (known_of self.now.program.now) operation.now))) }
    {
        match operation {
            Operation::Const { .. } => Ok(()),
            Operation::Move { to, from } => {
                self.put_passed(rules, func, self.carries_at(func, *to), *from, *to)
            }
            Operation::Bin { .. } => Ok(()),
            Operation::Cmp { .. } => Ok(()),
            Operation::Addr { to, of } => self.put_named(rules, func, *to, &named(func, *of)),
            Operation::FAddr { to, func: of } => {
                self.put_named(rules, func, *to, &ObjId::Func(u32::from(*of)))
            }
            Operation::Elem { to, base, .. } => self.put_passed(rules, func, true, *base, *to),
            Operation::Field { to, base, .. } => self.put_passed(rules, func, true, *base, *to),
            Operation::Load { to, from, ty } => {
                self.put_load(rules, func, cell_carries(*ty), *to, *from)
            }
            Operation::Store { to, from, ty } => {
                self.put_store(rules, func, cell_carries(*ty), *to, *from)
            }
            Operation::Call {
                to,
                func: callee,
                args,
            } => self.put_call(rules, func, *to, u32::from(*callee), args.as_slice()),
            Operation::ICall {
                to,
                func: pointer,
                args,
            } => self.put_indirect(rules, func, *to, *pointer, args.as_slice()),
        }
    }

    /// What the end of a block asks.
    pub(crate) fn put_exit(
        &self,
        rules: &mut Rules<'a>,
        func: u32,
        exit: Exit,
    ) -> Result<(), AllocError>
        ensures { OnOk result (Gathers self.now.numbering rules.old rules.new (end_demands (program_of self.now.program.now) func (exit_of exit))) }
    {
        match exit {
            Exit::Jump(_) => Ok(()),
            Exit::Branch { .. } => Ok(()),
            Exit::Ret(None) => Ok(()),
            Exit::Ret(Some(value)) => {
                let carried = self.carries_at(func, value);
                self.passes(rules, carried, &register(func, value)?, &Node::Result(func))
            }
        }
    }
}

/// How many there are, in 32 bits.
pub(crate) fn count_of<T>(items: &[T]) -> Result<u32, AllocError>
    ensures { IfOk result (λ n. n ≡ length items.now) }
{
    match u32::try_from(items.len()) {
        Ok(count) => Ok(count),
        Err(_) => Err(AllocError),
    }
}
