//! What is found of a program.

ghost use Rattle.std.specs.Prelude.{◌≡◌, ◌<◌, ◌^◌, [], ℕ, List, length, map, get_or, false, IfOk};
ghost use Rattle.ir_model.specs.Layout.{Known};
ghost use Rattle.ir_model.specs.Plain.{firmware_of};
ghost use Rattle.ir_model.specs.Resolve as definition;
ghost use Rattle.ir_model.specs.Resolved.{func_at};
ghost use Rattle.ir_program.specs.Parts.{sequence_of, exit_of};
ghost use Rattle.ir_program.specs.Seen.{program_of};
ghost use Rattle.need_sets.specs.Sets.{sets_of};
ghost use Rattle.ir_model.specs.Checked.{IsChecked};
ghost use Rattle.need_laws.specs.Checked.{AreSets};
ghost use Rattle.aces_why.specs.Reached.{AreReached};
ghost use Rattle.needs.specs.Bounds.{HasSmallNumbers};
ghost use Rattle.aces_why.specs.Findings as found;

use crate::reached_flags;
use crate::subject::Findings;
use base_lists::ListVec;
use ir_laws::limits::counts;
use ir_model::checked::Checked;
use ir_model::object::ObjId;
use ir_program::program::{Exit, Program, Sequence};
use need_laws::least_sets;
use need_points_to::solve;
use need_sets::{Node, PointsTo};
use needs::needs;
use plan_model::needs::FuncNeed;
use std::alloc::{AllocError, Global};

/// The objects that a register of a function may stand for.
fn objects(
    alloc: Global,
    sets: &PointsTo,
    func: usize,
    register: usize,
) -> Result<Vec<ObjId>, AllocError>
    requires func { func < 2 ^ 32 }
    requires register { register < 2 ^ 32 }
    ensures { IfOk result (λ os. found.AreObjectsOf (sets_of sets.now) func register os.items) }
{
    let node = Node::Reg {
        func: func as u32,
        reg: register as u32,
    };
    Vec::from_slice(alloc, sets.of(&node))
}

/// The objects that each register of a function may stand for.
fn func_objects(
    alloc: Global,
    program: &Program,
    sets: &PointsTo,
    func: usize,
) -> Result<Vec<ListVec<ObjId>>, AllocError>
    requires func { func < length program.now.funcs }
    requires numbers { HasSmallNumbers (program_of program.now) }
    ensures { IfOk result (λ rows. found.AreObjectsIn (program_of program.now) (sets_of sets.now) func rows.items) }
{
    let count = program.funcs.as_slice()[func].registers.len();
    let mut rows = Vec::new(alloc);
    for register in 0..count {
        rows.push(ListVec::new(objects(alloc, sets, func, register)?))?;
    }
    Ok(rows)
}

/// The objects that each register of each function may stand for.
fn all_objects(
    alloc: Global,
    program: &Program,
    sets: &PointsTo,
) -> Result<Vec<ListVec<ListVec<ObjId>>>, AllocError>
    requires { HasSmallNumbers (program_of program.now) }
    ensures count { IfOk result (λ all. length all.items ≡ length (program_of program.now).funcs) }
    ensures each { IfOk result (λ all. (f : ℕ) → f < length (program_of program.now).funcs → found.AreObjectsIn (program_of program.now) (sets_of sets.now) f (get_or all.items f [])) }
{
    let mut all = Vec::new(alloc);
    for func in 0..program.funcs.len() {
        all.push(ListVec::new(func_objects(alloc, program, sets, func)?))?;
    }
    Ok(all)
}

/// Numbers of 32 bits as places of lists.
fn as_places(alloc: Global, numbers: &[u32]) -> Result<Vec<usize>, AllocError>
    ensures { IfOk result (λ places. places.items ≡ numbers.now) }
{
    let mut places = Vec::new(alloc);
    for i in 0..numbers.len() {
        places.push(numbers[i] as usize)?;
    }
    Ok(places)
}

/// The functions that each function may call.
fn callees(alloc: Global, needs: &[FuncNeed]) -> Result<Vec<ListVec<usize>>, AllocError>
    ensures { IfOk result (λ lists. lists.items ≡ found.callees_of needs.now) }
{
    let mut lists = Vec::new(alloc);
    for i in 0..needs.len() {
        lists.push(ListVec::new(as_places(alloc, needs[i].callees.as_slice())?))?;
    }
    Ok(lists)
}

/// For each function, whether it is `main` or calls lead to it from there.
fn called_flags(alloc: Global, main: usize, needs: &[FuncNeed]) -> Result<Vec<bool>, AllocError>
    ensures { IfOk result (λ flags. AreReached (found.callees_of needs.now) main flags.items) }
{
    let callees = callees(alloc, needs)?;
    reached_flags(alloc, callees.as_slice(), main)
}

/// The blocks to which the end of a block may go.
fn exits_of(alloc: Global, exit: &Exit) -> Result<Vec<usize>, AllocError>
    ensures { IfOk result (λ blocks. blocks.items ≡ found.goes_to (exit_of exit.now)) }
{
    match *exit {
        Exit::Jump(block) => Ok(vec![in alloc; block]?),
        Exit::Branch { yes, no, .. } => Ok(vec![in alloc; yes, no]?),
        Exit::Ret(_) => Ok(Vec::new(alloc)),
    }
}

/// The blocks to which the end of each block may go.
fn all_exits(alloc: Global, blocks: &[Sequence]) -> Result<Vec<ListVec<usize>>, AllocError>
    ensures { IfOk result (λ lists. (ks : List Known) → lists.items ≡ found.exits_of (map (sequence_of ks) blocks.now)) }
{
    let mut lists = Vec::new(alloc);
    for i in 0..blocks.len() {
        lists.push(ListVec::new(exits_of(alloc, &blocks[i].exit)?))?;
    }
    Ok(lists)
}

/// For each block of a function, whether it is the first or is reached from there.
fn entered_flags(alloc: Global, blocks: &[Sequence]) -> Result<Vec<bool>, AllocError>
    ensures { IfOk result (λ flags. (ks : List Known) → AreReached (found.exits_of (map (sequence_of ks) blocks.now)) 0 flags.items) }
{
    let exits = all_exits(alloc, blocks)?;
    reached_flags(alloc, exits.as_slice(), 0)
}

/// For each function and each of its blocks, whether that is the first or is reached from there.
fn all_entered(alloc: Global, program: &Program) -> Result<Vec<ListVec<bool>>, AllocError>
    ensures count { IfOk result (λ all. length all.items ≡ length (program_of program.now).funcs) }
    ensures each { IfOk result (λ all. (f : ℕ) → f < length (program_of program.now).funcs → AreReached (found.exits_of (func_at (program_of program.now) f).blocks) 0 (get_or all.items f [])) }
{
    let mut all = Vec::new(alloc);
    let funcs = program.funcs.as_slice();
    for func in 0..funcs.len() {
        let blocks = funcs[func].blocks.as_slice();
        all.push(ListVec::new(entered_flags(alloc, blocks)?))?;
    }
    Ok(all)
}

/// What is found of a program by sets of objects.
fn found_by(alloc: Global, program: &Program, sets: &PointsTo) -> Result<Findings, AllocError>
    requires program { IsChecked (program_of program.now) }
    requires sets { AreSets (program_of program.now) (sets_of sets.now) }
    requires numbers { HasSmallNumbers (program_of program.now) }
    ensures { IfOk result (found.AreFindings (program_of program.now) (sets_of sets.now)) }
{
    let needs = needs(alloc, program, sets, false)?;
    let objects = all_objects(alloc, program, sets)?;
    let called = called_flags(alloc, program.main as usize, needs.funcs.as_slice())?;
    let entered = all_entered(alloc, program)?;
    Ok(Findings {
        needs,
        sets: ListVec::new(objects),
        called: ListVec::new(called),
        entered: ListVec::new(entered),
    })
}

/// What is found of a firmware by the least sets of objects of its program.
///
/// # Errors
///
/// There is no memory for it.
pub fn findings(
    alloc: Global,
    firmware: &Checked,
    program: &Program,
) -> Result<Findings, AllocError>
    requires { program_of program.now ≡ definition.resolve (firmware_of firmware.now) }
    ensures { IfOk result (found.AreFindingsOf (program_of program.now)) }
{
    firmware.firmware();
    least_sets();
    counts();
    let sets = solve(alloc, program)?;
    found_by(alloc, program, &sets)
}
