//! The sizes of what stands in a function. An answer is `None` if a number takes more than 32 bits.

ghost use Rattle.std.specs.Prelude.{◌≡◌, ◌+◌, ◌*◌, ◌<◌, ◌≤◌, ℕ, [], length, map, take, IfSome};
ghost use Rattle.ir_model.specs.Resolved.{NumberedFunc, Does, func_at};
ghost use Rattle.ir_model.specs.Signatures.{row_length};
ghost use Rattle.ir_program.specs.Parts.{target_of, operation_of, exit_of, sequence_of, routine_of};
ghost use Rattle.ir_program.specs.Seen.{program_of};
ghost use Rattle.code_model.specs.Places.{crosses};
ghost use Rattle.code_model.specs.Sizes as sizes;

use crate::frame::frame_words;
use crate::routines::routine_at;
use code_model::CallSite;
use ir_model::firmware::BinOp;
use ir_program::program::{Exit, Operation, Program, Routine, Sequence, Target};

/// Whether the call at a place may go to another compartment.
fn is_crossing(sites: &[CallSite], block: usize, place: usize) -> bool
    ensures { result ≡ crosses sites.now block place }
{
    for site in sites {
        if site.block as usize == block && site.place as usize == place {
            return true;
        }
    }
    false
}

/// The bytes of an operation on two registers.
fn bin_size(op: BinOp) -> u32
    ensures { result ≡ sizes.bin_size op }
{
    match op {
        BinOp::Udiv | BinOp::Sdiv => 10,
        BinOp::Urem | BinOp::Srem => 14,
        BinOp::Add
        | BinOp::Sub
        | BinOp::Mul
        | BinOp::And
        | BinOp::Or
        | BinOp::Xor
        | BinOp::Bic
        | BinOp::Shl
        | BinOp::Shr
        | BinOp::Sar => 8,
    }
}

/// The bytes of the address of what is named.
fn addr_size(of: Target) -> u32
    ensures { result ≡ sizes.addr_size (target_of of) }
{
    match of {
        Target::Local(_) => 4,
        Target::Global(_) | Target::Periph(_) => 10,
    }
}

/// The bytes of keeping a result, if it is kept.
fn save_size(to: Option<usize>) -> u32
    ensures { result ≡ sizes.save_size to }
{
    match to {
        None => 0,
        Some(_) => 2,
    }
}

/// The sum of some bytes and of two for each argument of a call.
fn with_args(bytes: u32, args: &[usize]) -> Option<u32>
    ensures { IfSome result (λ n. n ≡ bytes + 2 * length args.now) }
{
    let Ok(count) = u32::try_from(args.len()) else {
        return None;
    };
    count.checked_mul(2)?.checked_add(bytes)
}

/// The bytes of a direct call up to the address that it returns to.
fn call_size(crosses: bool, args: &[usize]) -> Option<u32>
    ensures { IfSome result (λ n. n ≡ sizes.call_size crosses args.now) }
{
    with_args(if crosses { 12 } else { 4 }, args)
}

/// The bytes of an indirect call up to the address that it returns to.
fn icall_size(crosses: bool, args: &[usize]) -> Option<u32>
    ensures { IfSome result (λ n. n ≡ sizes.icall_size crosses args.now) }
{
    with_args(if crosses { 8 } else { 6 }, args)
}

/// The bytes of the call at a place up to the address that it returns to; 0 of what is no call. Only a call is asked whether
/// it may go to another compartment.
pub(crate) fn resume_size(
    sites: &[CallSite],
    block: usize,
    place: usize,
    operation: &Operation,
) -> Option<u32>
    ensures { IfSome result (λ n. n ≡ sizes.resume_size (crosses sites.now block place) (Does (operation_of [] operation.now))) }
{
    match operation {
        Operation::Call { args, .. } => {
            call_size(is_crossing(sites, block, place), args.as_slice())
        }
        Operation::ICall { args, .. } => {
            icall_size(is_crossing(sites, block, place), args.as_slice())
        }
        _ => Some(0),
    }
}

/// The bytes of the instruction at a place.
#[tactic(auto, unfolding(code_model::specs::Sizes::inst_size))]
fn inst_size(sites: &[CallSite], block: usize, place: usize, operation: &Operation) -> Option<u32>
    ensures { IfSome result (λ n. n ≡ sizes.inst_size (crosses sites.now block place) (operation_of [] operation.now)) }
{
    match operation {
        Operation::Const { .. } | Operation::FAddr { .. } => Some(10),
        Operation::Move { .. } => Some(4),
        Operation::Bin { op, .. } => Some(bin_size(*op)),
        Operation::Cmp { .. } => Some(16),
        Operation::Addr { of, .. } => Some(addr_size(*of)),
        Operation::Elem { .. } => Some(18),
        Operation::Field { .. } => Some(14),
        Operation::Load { .. } | Operation::Store { .. } => Some(6),
        Operation::Call { to, .. } | Operation::ICall { to, .. } => {
            resume_size(sites, block, place, operation)?.checked_add(save_size(*to))
        }
    }
}

/// The bytes of the instructions of a block from a place up to another.
pub(crate) fn insts_size(
    sites: &[CallSite],
    block: usize,
    operations: &[Operation],
    from: usize,
    to: usize,
) -> Option<u32>
    requires order { from ≤ to }
    requires there { to ≤ length operations.now }
    ensures { IfSome result (λ n. (g : NumberedFunc) (lent : ℕ) → n + sizes.insts_size g sites.now lent block 0 (map (operation_of []) (take from operations.now)) ≡ sizes.insts_size g sites.now lent block 0 (map (operation_of []) (take to operations.now))) }
{
    let mut total: u32 = 0;
    for place in from..to {
        total = total.checked_add(inst_size(sites, block, place, &operations[place])?)?;
    }
    Some(total)
}

/// The bytes of SUB SP or ADD SP by a number of words.
fn adjust_size(words: u32) -> u32
    ensures exact { result ≡ sizes.adjust_size words }
    ensures small { result ≤ 4 }
{
    if words <= 127 { 2 } else { 4 }
}

/// The bytes of a block's end, in a function of whose locals `lent` are lent.
#[tactic(auto, unfolding(code_model::specs::Sizes::term_size))]
pub(crate) fn exit_size(routine: &Routine, lent: u32, exit: Exit) -> Option<u32>
    ensures { IfSome result (λ n. n ≡ sizes.term_size (routine_of [] routine.now) lent (exit_of exit)) }
{
    match exit {
        Exit::Jump(_) => Some(4),
        Exit::Branch { .. } => Some(14),
        Exit::Ret(outcome) => {
            let rest = save_size(outcome) + (adjust_size(frame_words(routine)?) + 2);
            lent.checked_mul(2)?.checked_add(rest)
        }
    }
}

/// How many parameters a function has.
fn param_count(routine: &Routine) -> usize
    ensures { result ≡ row_length (routine_of [] routine.now).params }
{
    routine.source.params.len()
}

/// The bytes of an entry, in a function of whose locals `lent` are lent.
#[tactic(auto, unfolding(code_model::specs::Sizes::entry_size))]
pub(crate) fn entry_size(routine: &Routine, lent: u32) -> Option<u32>
    ensures { IfSome result (λ n. n ≡ sizes.entry_size (routine_of [] routine.now) lent) }
{
    let words = frame_words(routine)?;
    let Ok(params) = u32::try_from(param_count(routine)) else {
        return None;
    };
    let clears = words.saturating_sub(params).checked_mul(2)?.checked_add(2)?;
    let stores = params.checked_mul(2)?.checked_add(clears)?;
    let frame = stores.checked_add(2 + adjust_size(words))?;
    lent.checked_mul(6)?.checked_add(frame)
}

/// The bytes of a block.
fn block_size(
    routine: &Routine,
    sites: &[CallSite],
    lent: u32,
    block: usize,
    sequence: &Sequence,
) -> Option<u32>
    ensures { IfSome result (λ n. n ≡ sizes.block_size (routine_of [] routine.now) sites.now lent block (sequence_of [] sequence.now)) }
{
    let operations = sequence.operations.as_slice();
    let insts = insts_size(sites, block, operations, 0, operations.len())?;
    insts.checked_add(exit_size(routine, lent, sequence.exit)?)
}

/// The bytes of the entry and of blocks of a function; the first has number 0.
fn size_with(routine: &Routine, sites: &[CallSite], lent: u32, blocks: &[Sequence]) -> Option<u32>
    ensures { IfSome result (λ n. n ≡ sizes.entry_size (routine_of [] routine.now) lent + sizes.blocks_size (routine_of [] routine.now) sites.now lent 0 (map (sequence_of []) blocks.now)) }
{
    let mut total = entry_size(routine, lent)?;
    for (block, sequence) in blocks.iter().enumerate() {
        total = total.checked_add(block_size(routine, sites, lent, block, sequence)?)?;
    }
    Some(total)
}

/// The bytes of a function whose calls that may go to another compartment are `sites`, and of whose locals `lent` are lent.
fn routine_size(routine: &Routine, sites: &[CallSite], lent: u32) -> Option<u32>
    ensures { IfSome result (λ n. n ≡ sizes.function_size (routine_of [] routine.now) sites.now lent) }
{
    size_with(routine, sites, lent, routine.blocks.as_slice())
}

/// The bytes of the function of a number, whose calls that may go to another compartment are `sites`, and of whose locals
/// `lent` are lent; `None` if there is no such function.
pub fn function_size(program: &Program, func: usize, sites: &[CallSite], lent: u32) -> Option<u32>
    ensures { IfSome result (λ n. (func < length program.now.funcs) × (n ≡ sizes.function_size (func_at (program_of program.now) func) sites.now lent)) }
{
    let routine = routine_at(program, func)?;
    routine_size(routine, sites, lent)
}
