//! The rules that a program asks for.

ghost use Rattle.std.specs.Prelude.{◌≡◌, ◌∷◌, [], Some, IfOk, OnOk, MatchOption};
ghost use Rattle.ir_model.specs.Types.{type_of, U32};
ghost use Rattle.ir_model.specs.Objects.{object_by};
ghost use Rattle.ir_model.specs.Resolved.{register_type};
ghost use Rattle.ir_laws.specs.Sets as flows;
ghost use Rattle.ir_laws.specs.Sets.{Register};
ghost use Rattle.ir_program.specs.Seen.{program_of};
ghost use Rattle.need_sets.specs.Nodes.{node_by};
ghost use Rattle.need_sets.specs.Numbers.{node_number, object_number};
ghost use Rattle.need_sets.specs.Demands.{HasObject, PassesOn, LoadsTo, StoresFrom, GivesTo, TakesFrom, where_carried};
ghost use Rattle.need_sets.specs.Gathered.{Fact, Copy, Asks, IsAdded, Gathers};

use crate::generator::Generator;
use ir_model::object::ObjId;
use ir_model::types::Ty;
use need_sets::{Edge, Node, Pair, Rules, Trigger, carries};
use std::alloc::AllocError;

fn add_fact(rules: &mut Rules, fact: Pair) -> Result<(), AllocError>
    ensures { OnOk result (IsAdded rules.old rules.new (Fact fact)) }
{
    rules.facts.push(fact)?;
    Ok(())
}

fn add_copy(rules: &mut Rules, edge: Edge) -> Result<(), AllocError>
    ensures { OnOk result (IsAdded rules.old rules.new (Copy edge)) }
{
    rules.copies.push(edge)?;
    Ok(())
}

fn add_trigger<'a>(rules: &mut Rules<'a>, node: u32, trigger: Trigger<'a>) -> Result<(), AllocError>
    ensures { OnOk result (IsAdded rules.old rules.new (Asks node trigger.entry)) }
{
    if node as usize >= rules.triggers.len() {
        return Err(AllocError);
    }
    rules.triggers[node as usize].push(trigger)?;
    Ok(())
}

/// A register of a function.
pub(crate) fn register(func: u32, number: usize) -> Result<Node, AllocError>
    ensures { IfOk result (λ n. node_by n ≡ Register func number) }
{
    match u32::try_from(number) {
        Ok(reg) => Ok(Node::Reg { func, reg }),
        Err(_) => Err(AllocError),
    }
}

impl<'a> Generator<'a> {
    fn node_number(&self, node: &Node) -> Result<u32, AllocError>
        ensures { IfOk result (λ k. node_number self.now.numbering (node_by node.now) ≡ Some k) }
    {
        match self.numbering.node(node) {
            Some(number) => Ok(number),
            None => Err(AllocError),
        }
    }

    fn object_number(&self, object: &ObjId) -> Result<u32, AllocError>
        ensures { IfOk result (λ k. object_number self.now.numbering (object_by object.now) ≡ Some k) }
    {
        match self.numbering.object(object) {
            Some(number) => Ok(number),
            None => Err(AllocError),
        }
    }

    /// The type of a register; `None` if it is absent.
    pub(crate) fn type_at(&self, func: u32, register: usize) -> Option<&'a Ty>
        ensures { MatchOption result (register_type (program_of self.now.program.now) func register ≡ U32) (λ t. register_type (program_of self.now.program.now) func register ≡ type_of t.now) }
    {
        match self.program.funcs.as_slice().get(func as usize) {
            Some(routine) => match routine.registers.as_slice().get(register) {
                Some(ty) => Some(*ty),
                None => None,
            },
            None => None,
        }
    }

    /// Whether values of a register are of objects.
    pub(crate) fn carries_at(&self, func: u32, register: usize) -> bool
        ensures { result ≡ flows.carries (register_type (program_of self.now.program.now) func register) }
    {
        match self.type_at(func, register) {
            Some(ty) => carries(ty),
            None => false,
        }
    }

    /// A node has an object.
    pub(crate) fn has(
        &self,
        rules: &mut Rules<'a>,
        node: &Node,
        object: &ObjId,
    ) -> Result<(), AllocError>
        ensures { OnOk result (Gathers self.now.numbering rules.old rules.new (HasObject (node_by node.now) (object_by object.now) ∷ [])) }
    {
        let node = self.node_number(node)?;
        let object = self.object_number(object)?;
        add_fact(rules, Pair { node, object })
    }

    /// A node is passed on to another, where values carry objects.
    pub(crate) fn passes(
        &self,
        rules: &mut Rules<'a>,
        carried: bool,
        from: &Node,
        to: &Node,
    ) -> Result<(), AllocError>
        ensures { OnOk result (Gathers self.now.numbering rules.old rules.new (where_carried carried (PassesOn (node_by from.now) (node_by to.now)))) }
    {
        if !carried {
            return Ok(());
        }
        let from = self.node_number(from)?;
        let to = self.node_number(to)?;
        add_copy(rules, Edge { from, to })
    }

    /// What the objects of a pointer hold is passed on to a node, where values carry objects.
    pub(crate) fn loads(
        &self,
        rules: &mut Rules<'a>,
        carried: bool,
        pointer: &Node,
        to: &Node,
    ) -> Result<(), AllocError>
        ensures { OnOk result (Gathers self.now.numbering rules.old rules.new (where_carried carried (LoadsTo (node_by pointer.now) (node_by to.now)))) }
    {
        if !carried {
            return Ok(());
        }
        let pointer = self.node_number(pointer)?;
        let to = self.node_number(to)?;
        add_trigger(rules, pointer, Trigger::Load { to })
    }

    /// A node is passed on to what the objects of a pointer hold, where values carry objects.
    pub(crate) fn stores(
        &self,
        rules: &mut Rules<'a>,
        carried: bool,
        pointer: &Node,
        from: &Node,
    ) -> Result<(), AllocError>
        ensures { OnOk result (Gathers self.now.numbering rules.old rules.new (where_carried carried (StoresFrom (node_by pointer.now) (node_by from.now)))) }
    {
        if !carried {
            return Ok(());
        }
        let pointer = self.node_number(pointer)?;
        let from = self.node_number(from)?;
        add_trigger(rules, pointer, Trigger::Store { from })
    }

    /// A node is passed on to a parameter of the functions of a pointer.
    pub(crate) fn gives(
        &self,
        rules: &mut Rules<'a>,
        pointer: &Node,
        ty: &'a Ty,
        from: &Node,
        place: u32,
    ) -> Result<(), AllocError>
        ensures { OnOk result (Gathers self.now.numbering rules.old rules.new (GivesTo (node_by pointer.now) (type_of ty.now) (node_by from.now) place ∷ [])) }
    {
        let pointer = self.node_number(pointer)?;
        let from = self.node_number(from)?;
        add_trigger(rules, pointer, Trigger::Argument { ty, from, place })
    }

    /// What the functions of a pointer give is passed on to a node, where values carry objects.
    pub(crate) fn takes(
        &self,
        rules: &mut Rules<'a>,
        carried: bool,
        pointer: &Node,
        ty: &'a Ty,
        to: &Node,
    ) -> Result<(), AllocError>
        ensures { OnOk result (Gathers self.now.numbering rules.old rules.new (where_carried carried (TakesFrom (node_by pointer.now) (type_of ty.now) (node_by to.now)))) }
    {
        if !carried {
            return Ok(());
        }
        let pointer = self.node_number(pointer)?;
        let to = self.node_number(to)?;
        add_trigger(rules, pointer, Trigger::Outcome { ty, to })
    }
}
