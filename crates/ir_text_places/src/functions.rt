//! How many tokens functions and files have.

ghost use Rattle.std.specs.Prelude.{◌≡◌, ◌*◌, map, length, IfOk, sum_by};
ghost use Rattle.ir_model.specs.Plain.{func_of, file_of};
ghost use Rattle.ir_text_places.specs.Sizes as sizes;

use crate::declarations::bindings_size;
use crate::types::{add, closed_row_size, result_size};
use base_names::Name;
use ir_model::firmware::{Block, FileDecl, Func, Inst, Term};
use std::alloc::AllocError;

fn kept_size(to: &Option<Name>) -> u64
    ensures { result ≡ sizes.kept_size to.now }
{
    match to {
        None => 1,
        Some(_) => 3,
    }
}

// Arguments, each with the token behind it.
fn arguments_size(args: &[Name]) -> Result<u64, AllocError>
    ensures { IfOk result (λ n. n ≡ 2 * length args.now) }
{
    match (args.len() as u64).checked_mul(2) {
        Some(size) => Ok(size),
        None => Err(AllocError),
    }
}

fn call_size(to: &Option<Name>, args: &[Name]) -> Result<u64, AllocError>
    ensures { IfOk result (λ n. n ≡ sizes.call_size to.now args.now) }
{
    let args = arguments_size(args)?;
    let called = add(2, closed_row_size(args))?;
    add(kept_size(to), called)
}

fn inst_size(inst: &Inst) -> Result<u64, AllocError>
    ensures { IfOk result (λ n. n ≡ sizes.inst_size inst.now) }
{
    match inst {
        Inst::Const { .. } => Ok(3),
        Inst::Move { .. } => Ok(3),
        Inst::Bin { .. } => Ok(6),
        Inst::Cmp { .. } => Ok(6),
        Inst::Addr { .. } => Ok(4),
        Inst::FAddr { .. } => Ok(4),
        Inst::Elem { .. } => Ok(6),
        Inst::Field { .. } => Ok(6),
        Inst::Load { .. } => Ok(4),
        Inst::Store { .. } => Ok(4),
        Inst::Call { to, args, .. } => call_size(to, args.as_slice()),
        Inst::ICall { to, args, .. } => call_size(to, args.as_slice()),
    }
}

/// The tokens of instructions.
pub fn insts_size(insts: &[Inst]) -> Result<u64, AllocError>
    ensures { IfOk result (λ n. n ≡ sizes.insts_size insts.now) }
{
    let mut size = 0;
    for inst in insts {
        let more = inst_size(inst)?;
        size = add(size, more)?;
    }
    Ok(size)
}

fn term_size(term: &Term) -> u64
    ensures { result ≡ sizes.term_size term.now }
{
    match term {
        Term::Jump(_) => 2,
        Term::Branch { .. } => 4,
        Term::Ret(None) => 1,
        Term::Ret(Some(_)) => 2,
    }
}

fn block_size(block: &Block) -> Result<u64, AllocError>
    ensures { IfOk result (λ n. n ≡ sizes.block_size block.now) }
{
    let insts = insts_size(block.insts.as_slice())?;
    let behind = add(insts, term_size(&block.term))?;
    add(2, behind)
}

/// The tokens of blocks.
pub fn blocks_size(blocks: &[Block]) -> Result<u64, AllocError>
    ensures { IfOk result (λ n. n ≡ sum_by sizes.block_size blocks.now) }
{
    let mut size = 0;
    for block in blocks {
        let more = block_size(block)?;
        size = add(size, more)?;
    }
    Ok(size)
}

fn head_size(func: &Func) -> Result<u64, AllocError>
    ensures { IfOk result (λ n. n ≡ sizes.head_size (func_of func.now)) }
{
    let params = bindings_size(func.params.as_slice())?;
    let outcome = result_size(&func.result)?;
    let behind = add(closed_row_size(params), outcome)?;
    add(4, behind)
}

/// The tokens of a function before its blocks.
pub fn front_size(func: &Func) -> Result<u64, AllocError>
    ensures { IfOk result (λ n. n ≡ sizes.front_size (func_of func.now)) }
{
    let head = head_size(func)?;
    let locals = bindings_size(func.locals.as_slice())?;
    let regs = bindings_size(func.regs.as_slice())?;
    let bindings = add(locals, regs)?;
    add(head, bindings)
}

fn func_size(func: &Func) -> Result<u64, AllocError>
    ensures { IfOk result (λ n. n ≡ sizes.func_size (func_of func.now)) }
{
    let front = front_size(func)?;
    let blocks = blocks_size(func.blocks.as_slice())?;
    let behind = add(blocks, 1)?;
    add(front, behind)
}

/// The tokens of functions.
pub fn funcs_size(funcs: &[Func]) -> Result<u64, AllocError>
    ensures { IfOk result (λ n. n ≡ sizes.funcs_size (map func_of funcs.now)) }
{
    let mut size = 0;
    for func in funcs {
        let more = func_size(func)?;
        size = add(size, more)?;
    }
    Ok(size)
}

/// The tokens of a file.
pub fn file_size(file: &FileDecl) -> Result<u64, AllocError>
    ensures { IfOk result (λ n. n ≡ sizes.file_size (file_of file.now)) }
{
    let funcs = funcs_size(file.funcs.as_slice())?;
    add(4, funcs)
}

/// The tokens of files.
pub fn files_size(files: &[FileDecl]) -> Result<u64, AllocError>
    ensures { IfOk result (λ n. n ≡ sum_by sizes.file_size (map file_of files.now)) }
{
    let mut size = 0;
    for file in files {
        let more = file_size(file)?;
        size = add(size, more)?;
    }
    Ok(size)
}
