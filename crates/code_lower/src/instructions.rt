//! The instructions that all templates are made of, and how code is put.

ghost use Rattle.std.specs.Prelude.{◌≡◌, ◌<◌, OnOk};
ghost use Rattle.machine_thumb.specs.Table.{InTable, svc};
ghost use Rattle.machine_thumb.specs.Bytes.{EachInTable};
ghost use Rattle.code_model.specs.Words as word;
ghost use Rattle.code_model.specs.Words.{plain};
ghost use Rattle.code_model.specs.Emitted.{with_more, HasRoom};

use machine_thumb::Instr;
use machine_thumb_asm::Asm;
use std::alloc::AllocError;

/// LDR t, [SP, #4 k]
pub(crate) fn load_home(t: u8, k: usize) -> Instr
    requires low { t < 8 }
    requires near { k < 256 }
    ensures code { result ≡ word.load_home t k }
    ensures in_table { InTable result }
{
    Instr::StackRelative {
        op: 1,
        t,
        d: 0,
        imm8: k as u8,
    }
}

/// STR t, [SP, #4 k]
pub(crate) fn store_home(t: u8, k: usize) -> Instr
    requires low { t < 8 }
    requires near { k < 256 }
    ensures code { result ≡ word.store_home t k }
    ensures in_table { InTable result }
{
    Instr::StackRelative {
        op: 0,
        t,
        d: 0,
        imm8: k as u8,
    }
}

/// r0 into a register of the function.
pub(crate) fn save(k: usize) -> Instr
    requires { k < 256 }
    ensures code { result ≡ word.save k }
    ensures in_table { InTable result }
{
    store_home(0, k)
}

/// ADD d, SP, #4 k: the address of a word of the frame.
pub(crate) fn home_address(d: u8, k: usize) -> Instr
    requires low { d < 8 }
    requires near { k < 256 }
    ensures code { result ≡ word.home_address d k }
    ensures in_table { InTable result }
{
    Instr::StackRelative {
        op: 2,
        t: 0,
        d,
        imm8: k as u8,
    }
}

/// MOVS d, #n
pub(crate) fn byte_into(d: u8, n: u8) -> Instr
    requires { d < 8 }
    ensures code { result ≡ word.byte_into d n }
    ensures in_table { InTable result }
{
    Instr::DataImmediate { op: 0, d, imm8: n }
}

/// MOVW and MOVT: a word into a register.
pub(crate) fn word_into(d: u8, n: u32) -> [Instr; 2]
    requires { d < 13 }
    ensures code { result ≡ word.word_into d n }
    ensures in_table { EachInTable result }
{
    let low = Instr::MoveWide {
        d,
        value: (n % 0x1_0000) as u16,
    };
    let high = Instr::MoveTop {
        d,
        value: (n / 0x1_0000) as u16,
    };
    [low, high]
}

/// SVC #n
pub(crate) fn supervisor_call(n: u8) -> Instr
    ensures code { result ≡ svc n }
    ensures in_table { InTable result }
{
    Instr::CallBranch {
        op: 0,
        imm8: n,
        offset: 0,
    }
}

/// Puts instructions one behind the other.
pub(crate) fn put(asm: &mut Asm, code: &[Instr]) -> Result<(), AllocError>
    requires in_table { EachInTable code.now }
    requires room { HasRoom asm.old (plain code.now) }
    ensures { OnOk result (asm.new ≡ with_more asm.old (plain code.now)) }
{
    for instruction in code {
        asm.emit(instruction)?;
    }
    Ok(())
}
