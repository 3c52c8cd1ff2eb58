//! The code of each instruction and of each block's end.

ghost use Rattle.std.specs.Prelude.{◌≡◌, ◌+◌, ◌%◌, ◌<◌, length, OnOk};
ghost use Rattle.machine_thumb_asm.specs.Assembly.{here, total};
ghost use Rattle.ir_program.specs.Parts.{target_of, exit_of};
ghost use Rattle.ir_model.specs.Resolved as resolved;
ghost use Rattle.code_model.specs.Words.{plain};
ghost use Rattle.code_model.specs.Addresses as address;
ghost use Rattle.code_model.specs.Places.{site_in};
ghost use Rattle.code_model.specs.Templates as template;
ghost use Rattle.code_model.specs.Fitting.{InstFits, TermFits};
ghost use Rattle.code_lower.specs.Subjects.{func_of, inst_of, items_of, branch_items, first_label, IsSubject, HasLabels};
ghost use Rattle.code_model.specs.FrameShape.{frame_shape};
ghost use Rattle.code_model.specs.Emitted.{with_more, HasRoom, AreNear};

use crate::addresses::{put_elem, put_field, put_load, put_local_address, put_store};
use crate::calls::{put_call, put_icall};
use crate::comparisons::put_cmp;
use crate::entry::{put_enter, put_leave};
use crate::instructions::{load_home, put};
use crate::numbers::{put_bin, put_const, put_move};
use crate::subject::Subject;
use ir_program::program::{Exit, Operation, Target};
use machine_thumb::Instr;
use machine_thumb_asm::{Asm, BranchKind};
use std::alloc::AllocError;

/// The address of what is named into a register of the function.
fn put_addr(asm: &mut Asm, subject: &Subject, to: usize, of: Target) -> Result<(), AllocError>
    requires subject { IsSubject subject.now }
    requires fits { InstFits subject.now.places.now (func_of subject.now) (resolved.Addr to (target_of of)) }
    requires room { HasRoom asm.old (plain (address.addr_code (frame_shape (func_of subject.now)) subject.now.places.now to (target_of of))) }
    ensures { OnOk result (asm.new ≡ with_more asm.old (plain (address.addr_code (frame_shape (func_of subject.now)) subject.now.places.now to (target_of of)))) }
{
    match of {
        Target::Global(global) => {
            let address = subject.places.globals.as_slice()[global as usize];
            put_const(asm, to, address)
        }
        Target::Periph(periph) => {
            let address = subject.places.windows.as_slice()[periph as usize];
            put_const(asm, to, address)
        }
        Target::Local(local) => put_local_address(asm, to, subject.home(local as usize)),
    }
}

/// The instruction at a place of a block. Where it is a call, the number of its site is looked up.
#[tactic(auto, unfolding(code_model::specs::Templates::inst_items))]
pub(crate) fn put_inst(
    asm: &mut Asm,
    subject: &Subject,
    block: usize,
    place: usize,
    operation: &Operation,
) -> Result<(), AllocError>
    requires subject { IsSubject subject.now }
    requires fits { InstFits subject.now.places.now (func_of subject.now) (inst_of subject.now operation.now) }
    requires even { here asm.old % 2 ≡ 0 }
    requires near { AreNear (here asm.old) (here asm.old + total (items_of subject.now (here asm.old) (site_in subject.now.places.now.sites block place) (inst_of subject.now operation.now))) subject.now.places.now.entries }
    requires room { HasRoom asm.old (items_of subject.now (here asm.old) (site_in subject.now.places.now.sites block place) (inst_of subject.now operation.now)) }
    ensures { OnOk result (asm.new ≡ with_more asm.old (items_of subject.now (here asm.old) (site_in subject.now.places.now.sites block place) (inst_of subject.now operation.now))) }
{
    match operation {
        Operation::Const { to, value } => put_const(asm, *to, *value),
        Operation::Move { to, from } => put_move(asm, *to, *from),
        Operation::Bin { op, to, a, b } => put_bin(asm, *op, *to, *a, *b),
        Operation::Cmp { op, to, a, b } => put_cmp(asm, *op, *to, *a, *b),
        Operation::Addr { to, of } => put_addr(asm, subject, *to, *of),
        Operation::FAddr { to, func } => {
            let entry = subject.places.entries.as_slice()[*func as usize];
            put_const(asm, *to, entry + 1)
        }
        Operation::Elem {
            to,
            base,
            index,
            element,
        } => put_elem(asm, &subject.program.layouts, *to, *base, *index, *element),
        Operation::Field { to, base, offset } => put_field(asm, *to, *base, *offset),
        Operation::Load { to, from, ty } => put_load(asm, *to, *from, *ty),
        Operation::Store { to, from, ty } => put_store(asm, *to, *from, *ty),
        Operation::Call { to, func, args } => {
            let entry = subject.places.entries.as_slice()[*func as usize];
            let site = subject.site(block, place);
            put_call(asm, entry, site, *to, args.as_slice())
        }
        Operation::ICall { to, func, args } => {
            let site = subject.site(block, place);
            put_icall(asm, *func, site, *to, args.as_slice())
        }
    }
}

/// A branch to the first block where a register is not 0, else to the second: LDR r0, CMP r0, #0, BEQ over the next, and two B.
fn put_branch(
    asm: &mut Asm,
    subject: &Subject,
    on: usize,
    yes: usize,
    no: usize,
) -> Result<(), AllocError>
    requires subject { IsSubject subject.now }
    requires on_near { on < length (func_of subject.now).regs }
    requires yes_there { yes < length (func_of subject.now).blocks }
    requires no_there { no < length (func_of subject.now).blocks }
    requires labels { HasLabels subject.now asm.old }
    requires room { HasRoom asm.old (branch_items (first_label subject.now.labels.items) on yes no) }
    ensures { OnOk result (asm.new ≡ with_more asm.old (branch_items (first_label subject.now.labels.items) on yes no)) }
{
    let compare = Instr::DataImmediate {
        op: 1,
        d: 0,
        imm8: 0,
    };
    let over_one = Instr::BranchConditional { cond: 0, offset: 2 };
    put(asm, &[load_home(0, on), compare, over_one])?;
    asm.branch(BranchKind::Long, subject.label(yes))?;
    asm.branch(BranchKind::Long, subject.label(no))
}

/// A block's end.
#[tactic(auto, unfolding(code_model::specs::Templates::term_items))]
pub(crate) fn put_exit(asm: &mut Asm, subject: &Subject, exit: Exit) -> Result<(), AllocError>
    requires subject { IsSubject subject.now }
    requires fits { TermFits subject.now.places.now (func_of subject.now) (exit_of exit) }
    requires labels { HasLabels subject.now asm.old }
    requires room { HasRoom asm.old (template.term_items (func_of subject.now) subject.now.places.now (first_label subject.now.labels.items) (exit_of exit)) }
    ensures { OnOk result (asm.new ≡ with_more asm.old (template.term_items (func_of subject.now) subject.now.places.now (first_label subject.now.labels.items) (exit_of exit))) }
{
    match exit {
        Exit::Jump(block) => asm.branch(BranchKind::Long, subject.label(block)),
        Exit::Branch { on, yes, no } => put_branch(asm, subject, on, yes, no),
        Exit::Ret(outcome) => put_leave(asm, subject.words, subject.lent.as_slice(), outcome),
    }
}

/// The entry of a function.
pub(crate) fn put_entry(asm: &mut Asm, subject: &Subject) -> Result<(), AllocError>
    requires subject { IsSubject subject.now }
    requires room { HasRoom asm.old (template.entry_items (func_of subject.now) subject.now.places.now) }
    ensures { OnOk result (asm.new ≡ with_more asm.old (template.entry_items (func_of subject.now) subject.now.places.now)) }
{
    let params = subject.routine.source.params.len();
    put_enter(asm, params, subject.words, subject.lent.as_slice())
}
