//! The first bytes of flash.

ghost use Rattle.std.specs.Prelude.{◌≡◌, ◌+◌, ◌*◌, ◌≤◌, ◌<◌, ◌^◌, None, length, OnOk, IfOk};
ghost use Rattle.machine_thumb_asm.specs.Assembly as assembly;
ghost use Rattle.machine_thumb_asm.specs.Finished.{assembled, first_far};
ghost use Rattle.monitor_assembler.specs.Emitted.{HasPut};
ghost use Rattle.monitor_program.specs.Page as flash;
ghost use Rattle.monitor_lists.specs.Made.{constants_of};
ghost use Rattle.monitor_code.specs.Whole.{CanPut, HasWords, lists_code, vector_words};

use crate::calls::{Lists, all_lists, numbers};
use machine_thumb::Instr;
use machine_thumb_asm::{Asm, AsmRefusal};
use monitor_assembler::{assemble, length_of};
use monitor_lists::Numbers;
use monitor_model::Tables;
use monitor_program::code_size::page_is_full;
use std::alloc::{AllocError, Global};

/// The address of a handler, with bit 0 set, modulo 2^32.
fn vector_to(t: &Tables, offset: u32) -> u32
    requires { offset < 2 ^ 31 }
    ensures { result ≡ flash.vector_to t.now offset }
{
    t.base.wrapping_add(offset + 1)
}

/// Puts words.
fn put_words(words: &[u32], asm: &mut Asm) -> Result<(), AllocError>
    requires { assembly.here asm.old + 4 * length words.now < 2 ^ 31 }
    ensures { OnOk result (HasWords asm.old asm.new words.now) }
{
    for word in words {
        asm.word(*word)?;
    }
    Ok(())
}

/// Puts the code of the three lists, and the leave stub.
fn put_lists(lists: &Lists, asm: &mut Asm) -> Result<(), AllocError>
    requires { CanPut asm.old lists.now }
    ensures { OnOk result (HasPut asm.old asm.new (lists_code lists.now)) }
{
    assemble(&lists.start, asm)?;
    assemble(&lists.svc, asm)?;
    assemble(&lists.memfault, asm)?;
    asm.emit(&Instr::CallBranch {
        op: 0,
        imm8: 1,
        offset: 0,
    })?;
    Ok(())
}

/// Erased flash behind some bytes, up to this size.
pub fn filled_up(mut bytes: Vec<u8>, size: usize) -> Result<Vec<u8>, AllocError>
    requires { length bytes.items ≤ size }
    ensures filled { IfOk result (λ filled. filled.items ≡ flash.filled_up size bytes.items) }
    ensures length { IfOk result (λ filled. length filled.items ≡ size) }
{
    for _ in bytes.len()..size {
        bytes.push(0xFF)?;
    }
    Ok(bytes)
}

/// The vectors.
fn vectors(t: &Tables, numbers: &Numbers, svc_at: u32, memfault_at: u32) -> [u32; 16]
    requires svc { svc_at < 2 ^ 31 }
    requires memfault { memfault_at < 2 ^ 31 }
    ensures { result ≡ vector_words t.now (constants_of numbers.now) svc_at memfault_at }
{
    let start = vector_to(t, 64);
    let fault = vector_to(t, memfault_at);
    let call = vector_to(t, svc_at);
    [
        numbers.block_end,
        start,
        0,
        0,
        fault,
        0,
        0,
        0,
        0,
        0,
        0,
        call,
        0,
        0,
        0,
        0,
    ]
}

/// The bytes of an assembler that has no branch to a label.
fn finished(asm: Asm) -> Result<Vec<u8>, AllocError>
    requires put { assembly.ArePut asm.places asm.items }
    requires near { first_far asm.places asm.base asm.items ≡ None }
    ensures { IfOk result (λ bytes. bytes.items ≡ assembled asm) }
{
    match asm.finish() {
        Ok(bytes) => Ok(bytes),
        Err(AsmRefusal::NoMemory) => Err(AllocError),
        Err(AsmRefusal::FarBranch { .. }) => unreachable!(),
    }
}

/// The first 4,096 bytes of flash: vectors, the code of the three lists, the leave stub, and erased flash.
pub fn page(alloc: Global, t: &Tables) -> Result<Vec<u8>, AllocError>
    ensures bytes { IfOk result (λ bytes. bytes.items ≡ flash.page t.now) }
    ensures length { IfOk result (λ bytes. length bytes.items ≡ 4096) }
{
    page_is_full();
    let numbers = numbers(alloc, t)?;
    let lists = all_lists(alloc, &numbers)?;
    let svc_at = 64 + length_of(&lists.start);
    let memfault_at = svc_at + length_of(&lists.svc);
    let mut asm = Asm::new(alloc, 0);
    put_words(&vectors(t, &numbers, svc_at, memfault_at), &mut asm)?;
    put_lists(&lists, &mut asm)?;
    filled_up(finished(asm)?, 4096)
}
