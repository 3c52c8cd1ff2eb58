//! The functions of a generated firmware.

ghost use Rattle.std.specs.Prelude.{◌≡◌, ◌<◌, ◌≤◌, ◌∷◌, [], map, codes, Some, IfOk};
ghost use Rattle.base_names.specs.Names.{IsName};
ghost use Rattle.ir_model.specs.Plain.{binding_of, func_of};
ghost use Rattle.ir_generator.specs.declared.choices.Body.TheVariants as body;
ghost use Rattle.ir_generator.specs.Choices.{IsWithin};
ghost use Rattle.ir_generator.specs.Functions as spec;

use crate::choices::Body;
use crate::naming::{global_name, port_name, test_name};
use crate::parts::{Code, one_pointer, one_word, put_pointer, put_word};
use base_lists::ListVec;
use base_names::Name;
use ir_model::firmware::{BinOp, Binding, Block, Func, Inst, Term};
use ir_model::types::Ty;
use std::alloc::{AllocError, Global};

/// A block of these instructions that returns, with a register where there is one.
#[tactic(auto, using(crate::proofs::Proper::fixed_rules))]
fn returning(alloc: Global, insts: Vec<Inst>, value: Option<Name>) -> Result<Block, AllocError>
    ensures { IfOk result (λ block. block ≡ spec.block (codes "b0") insts.items value) }
{
    let label = Name::of(alloc, b"b0")?;
    Ok(Block {
        label,
        insts: ListVec::new(insts),
        term: Term::Ret(value),
    })
}

/// A block of these instructions that goes to `b1`.
#[tactic(auto, using(crate::proofs::Proper::fixed_rules))]
fn jumping(alloc: Global, label: &[u8], insts: Vec<Inst>) -> Result<Block, AllocError>
    requires { IsName label.now }
    ensures { IfOk result (λ block. block ≡ spec.before_b1 label.now insts.items) }
{
    let label = Name::of(alloc, label)?;
    let next = Name::of(alloc, b"b1")?;
    Ok(Block {
        label,
        insts: ListVec::new(insts),
        term: Term::Jump(next),
    })
}

/// A list of one block.
fn one_block(alloc: Global, block: Block) -> Result<Vec<Block>, AllocError>
    ensures { IfOk result (λ blocks. blocks.items ≡ block ∷ []) }
{
    let mut blocks = Vec::new(alloc);
    blocks.push(block)?;
    Ok(blocks)
}

/// The block of a function that is drawn.
fn test_blocks(alloc: Global, code: Code, value: &[u8]) -> Result<Vec<Block>, AllocError>
    requires { IsName value.now }
    ensures { IfOk result (λ blocks. blocks.items ≡ spec.block (codes "b0") code (Some value.now) ∷ []) }
{
    let value = Name::of(alloc, value)?;
    let block = returning(alloc, code.into_insts(), Some(value))?;
    one_block(alloc, block)
}

/// A function that is drawn, of these locals, registers and blocks.
#[tactic(auto, using(crate::proofs::Proper::fixed_rules))]
fn test(
    alloc: Global,
    number: u32,
    locals: Vec<Binding>,
    regs: Vec<Binding>,
    blocks: Vec<Block>,
) -> Result<Func, AllocError>
    requires { number < 200 }
    ensures { IfOk result (λ func. func_of func ≡ spec.test_with number (map binding_of locals.items) (map binding_of regs.items) blocks.items) }
{
    let name = test_name(alloc, number)?;
    let params = one_word(alloc, b"v")?;
    Ok(Func {
        name,
        params: ListVec::new(params),
        result: Some(Ty::U32),
        locals: ListVec::new(locals),
        regs: ListVec::new(regs),
        blocks: ListVec::new(blocks),
    })
}

/// The code that adds to a global.
#[tactic(auto, using(crate::proofs::Proper::fixed_rules))]
fn adding_code(alloc: Global, global: u32) -> Result<Code, AllocError>
    requires { global < 200 }
    ensures { IfOk result (λ code. code ≡ spec.adding global) }
{
    let mut code = Code::new(alloc);
    code.addr(alloc, b"p", global_name(alloc, global)?)?;
    code.load(alloc, b"w", b"p")?;
    code.change(alloc, BinOp::Add, b"w", b"v")?;
    code.store(alloc, b"p", b"w")?;
    Ok(code)
}

/// A function that adds to a global.
#[tactic(auto, using(crate::proofs::Proper::fixed_rules))]
fn adding(alloc: Global, number: u32, global: u32) -> Result<Func, AllocError>
    requires number { number < 200 }
    requires global { global < 200 }
    ensures { IfOk result (λ func. func_of func ≡ spec.test_func number (body.Adds global)) }
{
    let mut regs = one_pointer(alloc, b"p")?;
    put_word(alloc, &mut regs, b"w")?;
    let code = adding_code(alloc, global)?;
    let blocks = test_blocks(alloc, code, b"w")?;
    test(alloc, number, Vec::new(alloc), regs, blocks)
}

/// The code that stores to a peripheral.
#[tactic(auto, using(crate::proofs::Proper::fixed_rules))]
fn storing_code(alloc: Global, port: u32) -> Result<Code, AllocError>
    requires { port < 4 }
    ensures { IfOk result (λ code. code ≡ spec.storing port) }
{
    let mut code = Code::new(alloc);
    code.addr(alloc, b"p", port_name(alloc, port)?)?;
    code.store(alloc, b"p", b"v")?;
    Ok(code)
}

/// A function that stores to a peripheral.
#[tactic(auto, using(crate::proofs::Proper::fixed_rules))]
fn storing(alloc: Global, number: u32, port: u32) -> Result<Func, AllocError>
    requires number { number < 200 }
    requires port { port < 4 }
    ensures { IfOk result (λ func. func_of func ≡ spec.test_func number (body.Stores port)) }
{
    let regs = one_pointer(alloc, b"p")?;
    let code = storing_code(alloc, port)?;
    let blocks = test_blocks(alloc, code, b"v")?;
    test(alloc, number, Vec::new(alloc), regs, blocks)
}

/// The code that calls a function that is drawn.
#[tactic(auto, using(crate::proofs::Proper::fixed_rules))]
fn calling_code(alloc: Global, callee: u32) -> Result<Code, AllocError>
    requires { callee < 200 }
    ensures { IfOk result (λ code. code ≡ spec.calling callee) }
{
    let mut code = Code::new(alloc);
    code.call(alloc, b"w", test_name(alloc, callee)?)?;
    code.change(alloc, BinOp::Xor, b"w", b"v")?;
    Ok(code)
}

/// A function that calls one that is drawn.
#[tactic(auto, using(crate::proofs::Proper::fixed_rules))]
fn calling(alloc: Global, number: u32, callee: u32) -> Result<Func, AllocError>
    requires number { number < 200 }
    requires callee { callee < 200 }
    ensures { IfOk result (λ func. func_of func ≡ spec.test_func number (body.Calls callee)) }
{
    let regs = one_word(alloc, b"w")?;
    let code = calling_code(alloc, callee)?;
    let blocks = test_blocks(alloc, code, b"w")?;
    test(alloc, number, Vec::new(alloc), regs, blocks)
}

/// The code that lends a local.
#[tactic(auto, using(crate::proofs::Proper::fixed_rules))]
fn lending_code(alloc: Global) -> Result<Code, AllocError>
    ensures { IfOk result (λ code. code ≡ spec.lending) }
{
    let mut code = Code::new(alloc);
    code.addr(alloc, b"p", Name::of(alloc, b"x")?)?;
    code.store(alloc, b"p", b"v")?;
    code.call_support(alloc)?;
    code.load(alloc, b"v", b"p")?;
    Ok(code)
}

/// A function that lends a local.
#[tactic(auto, using(crate::proofs::Proper::fixed_rules))]
fn lending(alloc: Global, number: u32) -> Result<Func, AllocError>
    requires { number < 200 }
    ensures { IfOk result (λ func. func_of func ≡ spec.test_func number body.Lends) }
{
    let locals = one_word(alloc, b"x")?;
    let regs = one_pointer(alloc, b"p")?;
    let code = lending_code(alloc)?;
    let blocks = test_blocks(alloc, code, b"v")?;
    test(alloc, number, locals, regs, blocks)
}

/// The function of this number with this body.
pub(crate) fn test_func(alloc: Global, number: u32, body: Body) -> Result<Func, AllocError>
    requires number { number < 200 }
    requires within { IsWithin 200 body }
    ensures { IfOk result (λ func. func_of func ≡ spec.test_func number body) }
{
    match body {
        Body::Adds(global) => adding(alloc, number, global),
        Body::Stores(port) => storing(alloc, number, port),
        Body::Calls(callee) => calling(alloc, number, callee),
        Body::Lends => lending(alloc, number),
    }
}

/// The code of the function that doubles a word that is lent.
#[tactic(auto, using(crate::proofs::Proper::fixed_rules))]
fn doubling_code(alloc: Global) -> Result<Code, AllocError>
    ensures { IfOk result (λ code. code ≡ spec.doubling) }
{
    let mut code = Code::new(alloc);
    code.load(alloc, b"w", b"p")?;
    code.change(alloc, BinOp::Add, b"w", b"w")?;
    code.store(alloc, b"p", b"w")?;
    Ok(code)
}

/// The function that doubles a word that is lent.
#[tactic(auto, using(crate::proofs::Proper::fixed_rules))]
pub(crate) fn support(alloc: Global) -> Result<Func, AllocError>
    ensures { IfOk result (λ func. func_of func ≡ spec.support) }
{
    let name = Name::of(alloc, b"s0")?;
    let params = one_pointer(alloc, b"p")?;
    let regs = one_word(alloc, b"w")?;
    let code = doubling_code(alloc)?;
    let block = returning(alloc, code.into_insts(), None)?;
    let blocks = one_block(alloc, block)?;
    Ok(Func {
        name,
        params: ListVec::new(params),
        result: None,
        locals: ListVec::new(Vec::new(alloc)),
        regs: ListVec::new(regs),
        blocks: ListVec::new(blocks),
    })
}

/// The code of `main` before its loop.
#[tactic(auto, using(crate::proofs::Proper::fixed_rules))]
fn beginning(alloc: Global) -> Result<Code, AllocError>
    ensures { IfOk result (λ code. code ≡ spec.beginning) }
{
    let mut code = Code::new(alloc);
    code.addr(alloc, b"p", port_name(alloc, 0)?)?;
    code.addr(alloc, b"q", port_name(alloc, 1)?)?;
    Ok(code)
}

/// The code of the loop of `main`.
#[tactic(auto, using(crate::proofs::Proper::fixed_rules))]
fn turn(alloc: Global, size: u32) -> Result<Code, AllocError>
    requires { size ≤ 200 }
    ensures { IfOk result (λ code. code ≡ spec.turn size) }
{
    let mut code = Code::new(alloc);
    code.load(alloc, b"v", b"p")?;
    code.call_tests(alloc, size)?;
    code.store(alloc, b"q", b"v")?;
    Ok(code)
}

/// The blocks of `main`.
#[tactic(auto, using(crate::proofs::Proper::fixed_rules))]
fn main_blocks(alloc: Global, size: u32) -> Result<Vec<Block>, AllocError>
    requires { size ≤ 200 }
    ensures { IfOk result (λ blocks. blocks.items ≡ spec.before_b1 (codes "b0") spec.beginning ∷ spec.before_b1 (codes "b1") (spec.turn size) ∷ []) }
{
    let code = beginning(alloc)?;
    let block = jumping(alloc, b"b0", code.into_insts())?;
    let mut blocks = one_block(alloc, block)?;
    let code = turn(alloc, size)?;
    blocks.push(jumping(alloc, b"b1", code.into_insts())?)?;
    Ok(blocks)
}

/// The registers of `main`.
#[tactic(auto, using(crate::proofs::Proper::fixed_rules))]
fn main_regs(alloc: Global) -> Result<Vec<Binding>, AllocError>
    ensures { IfOk result (λ regs. map binding_of regs.items ≡ spec.pointer (codes "p") ∷ spec.pointer (codes "q") ∷ spec.word (codes "v") ∷ []) }
{
    let mut regs = one_pointer(alloc, b"p")?;
    put_pointer(alloc, &mut regs, b"q")?;
    put_word(alloc, &mut regs, b"v")?;
    Ok(regs)
}

/// The first function, for a firmware of this size.
#[tactic(auto, using(crate::proofs::Proper::fixed_rules))]
pub(crate) fn main_func(alloc: Global, size: u32) -> Result<Func, AllocError>
    requires { size ≤ 200 }
    ensures { IfOk result (λ func. func_of func ≡ spec.main size) }
{
    let name = Name::of(alloc, b"main")?;
    let regs = main_regs(alloc)?;
    let blocks = main_blocks(alloc, size)?;
    Ok(Func {
        name,
        params: ListVec::new(Vec::new(alloc)),
        result: None,
        locals: ListVec::new(Vec::new(alloc)),
        regs: ListVec::new(regs),
        blocks: ListVec::new(blocks),
    })
}
