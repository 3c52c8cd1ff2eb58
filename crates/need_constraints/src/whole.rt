//! The rules of a whole program.

ghost use Rattle.std.specs.Prelude.{◌≡◌, ◌<◌, ◌≤◌, [], length, map, take, IfOk, OnOk};
ghost use Rattle.std.specs.List.{flat_map};
ghost use Rattle.ir_program.specs.Parts.{sequence_of, operation_of};
ghost use Rattle.ir_program.specs.Seen.{program_of, known_of};
ghost use Rattle.ir_program.specs.Values.{value_of};
ghost use Rattle.plan_model.specs.Lists.{numbers_below};
ghost use Rattle.need_sets.specs.Demands.{inst_demands, block_demands, func_demands, global_demands, value_demands, demands_of};
ghost use Rattle.need_sets.specs.Numbers.{GroupCounts};
ghost use Rattle.need_sets.specs.Gathered.{Gathers, Represents};

use crate::generator::Generator;
use crate::instructions::count_of;
use ir_model::object::ObjId;
use ir_program::program::{Operation, Program, Sequence};
use ir_program::value::Value;
use need_sets::{Node, Numbering, Rules, System};
use std::alloc::{AllocError, Global};

/// Rules that ask nothing, of a number of nodes.
fn no_rules<'a>(alloc: Global, nodes: u32) -> Result<Rules<'a>, AllocError>
    ensures { IfOk result (λ rules. (c : GroupCounts) → Represents c rules []) }
{
    let mut triggers = Vec::new(alloc);
    for _ in 0..nodes {
        triggers.push(Vec::new(alloc))?;
    }
    Ok(Rules {
        facts: Vec::new(alloc),
        copies: Vec::new(alloc),
        triggers,
    })
}

impl<'a> Generator<'a> {
    fn put_operations(
        &self,
        rules: &mut Rules<'a>,
        func: u32,
        operations: &[Operation<'a>],
    ) -> Result<(), AllocError>
        ensures { OnOk result (Gathers self.now.numbering rules.old rules.new (flat_map (inst_demands (program_of self.now.program.now) func) (map (operation_of (known_of self.now.program.now)) operations.now))) }
    {
        for i in 0..operations.len() {
            self.put_operation(rules, func, &operations[i])?;
        }
        Ok(())
    }

    fn put_block(
        &self,
        rules: &mut Rules<'a>,
        func: u32,
        block: &Sequence<'a>,
    ) -> Result<(), AllocError>
        ensures { OnOk result (Gathers self.now.numbering rules.old rules.new (block_demands (program_of self.now.program.now) func (sequence_of (known_of self.now.program.now) block.now))) }
    {
        self.put_operations(rules, func, block.operations.as_slice())?;
        self.put_exit(rules, func, block.exit)
    }

    fn put_blocks(
        &self,
        rules: &mut Rules<'a>,
        func: u32,
        blocks: &[Sequence<'a>],
    ) -> Result<(), AllocError>
        ensures { OnOk result (Gathers self.now.numbering rules.old rules.new (flat_map (block_demands (program_of self.now.program.now) func) (map (sequence_of (known_of self.now.program.now)) blocks.now))) }
    {
        for i in 0..blocks.len() {
            self.put_block(rules, func, &blocks[i])?;
        }
        Ok(())
    }

    fn put_func(&self, rules: &mut Rules<'a>, func: u32) -> Result<(), AllocError>
        requires { func < length self.now.program.now.funcs }
        ensures { OnOk result (Gathers self.now.numbering rules.old rules.new (func_demands (program_of self.now.program.now) func)) }
    {
        let routine = &self.program.funcs.as_slice()[func as usize];
        self.put_blocks(rules, func, routine.blocks.as_slice())
    }

    fn put_funcs(&self, rules: &mut Rules<'a>) -> Result<(), AllocError>
        ensures { OnOk result (Gathers self.now.numbering rules.old rules.new (flat_map (func_demands (program_of self.now.program.now)) (numbers_below (length (program_of self.now.program.now).funcs)))) }
    {
        for func in 0..count_of(self.program.funcs.as_slice())? {
            self.put_func(rules, func)?;
        }
        Ok(())
    }

    fn put_value(&self, rules: &mut Rules<'a>, global: u32, value: &Value) -> Result<(), AllocError>
        ensures { OnOk result (Gathers self.now.numbering rules.old rules.new (value_demands global (value_of value.now))) }
    {
        let content = Node::Content(ObjId::Global(global));
        match *value {
            Value::Number(_) => Ok(()),
            Value::Null => Ok(()),
            Value::Code(func) => self.has(rules, &content, &ObjId::Func(u32::from(func))),
            Value::AtGlobal { global: of, .. } => self.has(rules, &content, &ObjId::Global(of)),
            Value::AtPeriph { periph, .. } => self.has(rules, &content, &ObjId::Periph(periph)),
            Value::AtLocal { local, func, .. } => {
                let object = ObjId::Local {
                    func: u32::from(func),
                    local: u32::from(local),
                };
                self.has(rules, &content, &object)
            }
        }
    }

    /// What the first `count` of a global's values ask.
    fn put_values(
        &self,
        rules: &mut Rules<'a>,
        global: u32,
        values: &[Value],
        count: usize,
    ) -> Result<(), AllocError>
        requires { count ≤ length values.now }
        ensures { OnOk result (Gathers self.now.numbering rules.old rules.new (flat_map (value_demands global) (map value_of (take count values.now)))) }
    {
        for i in 0..count {
            self.put_value(rules, global, &values[i])?;
        }
        Ok(())
    }

    /// What the initial values in the cells of a global ask.
    fn put_global(&self, rules: &mut Rules<'a>, global: u32) -> Result<(), AllocError>
        requires { global < length self.now.program.now.globals }
        ensures { OnOk result (Gathers self.now.numbering rules.old rules.new (global_demands (program_of self.now.program.now) global)) }
    {
        let variable = &self.program.globals.as_slice()[global as usize];
        let values = variable.init.as_slice();
        let count = values.len().min(variable.storage.cells as usize);
        self.put_values(rules, global, values, count)
    }

    fn put_globals(&self, rules: &mut Rules<'a>) -> Result<(), AllocError>
        ensures { OnOk result (Gathers self.now.numbering rules.old rules.new (flat_map (global_demands (program_of self.now.program.now)) (numbers_below (length (program_of self.now.program.now).globals)))) }
    {
        for global in 0..count_of(self.program.globals.as_slice())? {
            self.put_global(rules, global)?;
        }
        Ok(())
    }

    fn put_program(&self, rules: &mut Rules<'a>) -> Result<(), AllocError>
        ensures { OnOk result (Gathers self.now.numbering rules.old rules.new (demands_of (program_of self.now.program.now))) }
    {
        self.put_funcs(rules)?;
        self.put_globals(rules)
    }

    /// What the program asks.
    fn rules(&self, alloc: Global) -> Result<Rules<'a>, AllocError>
        ensures { IfOk result (λ rules. Represents self.now.numbering rules (demands_of (program_of self.now.program.now))) }
    {
        let mut rules = no_rules(alloc, self.numbering.node_count())?;
        self.put_program(&mut rules)?;
        Ok(rules)
    }
}

/// What a program asks, by the numbers of its nodes and objects.
///
/// # Errors
///
/// There is no memory for it, or the program names what has no number.
pub fn generate<'a>(
    alloc: Global,
    program: &'a Program<'a>,
    numbering: Numbering,
) -> Result<System<'a>, AllocError>
    ensures program { IfOk result (λ w. program_of w.program.now ≡ program_of program.now) }
    ensures numbering { IfOk result (λ w. w.numbering ≡ numbering) }
    ensures rules { IfOk result (λ w. Represents numbering w.rules (demands_of (program_of program.now))) }
{
    let generator = Generator { program, numbering };
    let rules = generator.rules(alloc)?;
    let Generator { program, numbering } = generator;
    Ok(System {
        program,
        numbering,
        rules,
    })
}
