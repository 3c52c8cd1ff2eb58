//! The way from an instruction to its halfwords.
#![tactic(auto)]

ghost use Rattle.std.specs.Prelude.{◌≡◌, ◌+◌, ◌*◌, ◌/◌, ◌%◌, ◌^◌, ◌<◌, ◌≤◌};
ghost use Rattle.machine_thumb.specs.Table.{InTable, encode, halfwords_of, branch_pair, move_pair};

use machine_thumb::{Code, Instr};

/// The halfwords of an instruction of the table, its fields in the order of the manual (A7.7).
#[tactic(auto, unfolding(machine_thumb::specs::Table::encode))]
pub fn encode(i: &Instr) -> Code
    requires { InTable i.now }
    ensures { result ≡ encode i.now }
{
    match *i {
        Instr::ShiftImmediate { op, imm5, m, d } => registers(high(op, 0x800), imm5, m, d),
        Instr::AddSubRegister { op, m, n, d } => registers(0x1800 + high(op, 0x200), m, n, d),
        Instr::AddSubImmediate { op, imm3, n, d } => registers(
            0x1C00 + high(op, 0x200),
            imm3,
            n,
            d,
        ),
        Instr::DataImmediate { op, d, imm8 } => with_byte(0x2000 + high(op, 0x800), d, imm8),
        Instr::DataRegister { op, m, d } => registers(0x4000, op, m, d),
        Instr::HighRegister { op, m, d } => high_register(op, m, d),
        Instr::BranchExchange { op, m } => Code::Half(0x4700 + high(op, 0x80) + high(m, 8)),
        Instr::LoadLiteral { t, imm8 } => with_byte(0x4800, t, imm8),
        Instr::TransferRegister { op, m, n, t } => registers(0x5000 + high(op, 0x200), m, n, t),
        Instr::TransferImmediate { op, imm5, n, t } => {
            registers(0x6000 + high(op, 0x800), imm5, n, t)
        }
        Instr::StackRelative { op, t, d, imm8 } => stack_relative(op, t, d, imm8),
        Instr::AdjustStack { op, imm7 } => Code::Half(0xB000 + high(op, 0x80) + u16::from(imm7)),
        Instr::PushPop { op, m, p, list } => push_pop(op, m, p, list),
        Instr::BreakpointNop { op, imm8 } => breakpoint_nop(op, imm8),
        Instr::TransferMultiple { op, n, list } => with_byte(0xC000 + high(op, 0x800), n, list),
        Instr::BranchConditional { cond, offset } => branch_conditional(cond, offset),
        Instr::CallBranch { op, imm8, offset } => call_branch(op, imm8, offset),
        Instr::BranchLink { offset } => long_branch(0xD000, offset),
        Instr::BranchWide { offset } => long_branch(0x9000, offset),
        Instr::MoveWide { d, value } => move_value(0xF240, d, value),
        Instr::MoveTop { d, value } => move_value(0xF2C0, d, value),
        Instr::Divide { op, n, d, m } => divide(op, n, d, m),
        Instr::SpecialRegister { op, n, d, s } => special_register(op, n, d, s),
        Instr::Barrier { op } => Code::Pair(0xF3BF, 0x8F4F + high(op, 0x20)),
    }
}

// A field at the place of its lowest bit.
fn high(field: u8, place: u16) -> u16
    requires { field * place < 2 ^ 16 }
    ensures { result ≡ field * place }
{
    u16::from(field) * place
}

// Three fields below the fixed bits: one from bit 6 on, then two registers.
fn registers(fixed: u16, upper: u8, middle: u8, low: u8) -> Code
    requires { fixed + upper * 64 + middle * 8 + low < 2 ^ 16 }
    ensures { result ≡ Code.Half (fixed + upper * 64 + middle * 8 + low) }
{
    Code::Half(fixed + u16::from(upper) * 64 + u16::from(middle) * 8 + u16::from(low))
}

// A field from bit 8 on and the eight bits below it.
fn with_byte(fixed: u16, upper: u8, byte: u8) -> Code
    requires { fixed + upper * 256 + byte < 2 ^ 16 }
    ensures { result ≡ Code.Half (fixed + upper * 256 + byte) }
{
    Code::Half(fixed + u16::from(upper) * 256 + u16::from(byte))
}

// The register d stands in two parts here: its bit 3 in bit 7, the others in bits 2 to 0.
#[tactic(auto, unfolding(machine_thumb::specs::Table::encode))]
fn high_register(op: u8, m: u8, d: u8) -> Code
    requires { InTable (Instr.HighRegister op m d) }
    ensures { result ≡ encode (Instr.HighRegister op m d) }
{
    registers(0x4400 + high(op, 0x100) + high(d / 8, 0x80), 0, m, d % 8)
}

#[tactic(auto, unfolding(machine_thumb::specs::Table::encode))]
fn stack_relative(op: u8, t: u8, d: u8, imm8: u8) -> Code
    requires { InTable (Instr.StackRelative op t d imm8) }
    ensures { result ≡ encode (Instr.StackRelative op t d imm8) }
{
    if op < 2 {
        with_byte(0x9000 + high(op, 0x800), t, imm8)
    } else {
        with_byte(0xA800, d, imm8)
    }
}

#[tactic(auto, unfolding(machine_thumb::specs::Table::encode))]
fn push_pop(op: u8, m: u8, p: u8, list: u8) -> Code
    requires { InTable (Instr.PushPop op m p list) }
    ensures { result ≡ encode (Instr.PushPop op m p list) }
{
    if op == 0 {
        with_byte(0xB400, m, list)
    } else {
        with_byte(0xBC00, p, list)
    }
}

#[tactic(auto, unfolding(machine_thumb::specs::Table::encode))]
fn breakpoint_nop(op: u8, imm8: u8) -> Code
    requires { InTable (Instr.BreakpointNop op imm8) }
    ensures { result ≡ encode (Instr.BreakpointNop op imm8) }
{
    Code::Half(if op == 0 {
        0xBE00 + u16::from(imm8)
    } else {
        0xBF00
    })
}

// The bits of a distance but the lowest, in two's complement.
fn halfwords(offset: i32) -> u32
    ensures { result ≡ halfwords_of offset }
{
    offset.cast_unsigned() / 2
}

#[tactic(auto, unfolding(machine_thumb::specs::Table::encode))]
fn branch_conditional(cond: u8, offset: i32) -> Code
    requires { InTable (Instr.BranchConditional cond offset) }
    ensures { result ≡ encode (Instr.BranchConditional cond offset) }
{
    with_byte(0xD000, cond, (halfwords(offset) % 0x100) as u8)
}

#[tactic(auto, unfolding(machine_thumb::specs::Table::encode))]
fn call_branch(op: u8, imm8: u8, offset: i32) -> Code
    requires { InTable (Instr.CallBranch op imm8 offset) }
    ensures { result ≡ encode (Instr.CallBranch op imm8 offset) }
{
    if op == 0 {
        Code::Half(0xDF00 + u16::from(imm8))
    } else {
        Code::Half(0xE000 + (halfwords(offset) % 0x800) as u16)
    }
}

// A branch of two halfwords: S, J1 and J2 where J is NOT(I EOR S), imm10 and imm11.
fn long_branch(second: u16, offset: i32) -> Code
    requires { second ≤ 0xD000 }
    ensures { result ≡ branch_pair second (halfwords_of offset % 2 ^ 24) }
{
    let bits = halfwords(offset) % 0x100_0000;
    let s = (bits / 0x80_0000) as u16;
    let i1 = (bits / 0x40_0000 % 2) as u16;
    let i2 = (bits / 0x20_0000 % 2) as u16;
    let j1 = (i1 + s + 1) % 2;
    let j2 = (i2 + s + 1) % 2;
    let first = 0xF000 + s * 0x400 + (bits / 0x800 % 0x400) as u16;
    Code::Pair(
        first,
        second + j1 * 0x2000 + j2 * 0x800 + (bits % 0x800) as u16,
    )
}

// A move of imm4:i:imm3:imm8.
fn move_value(first: u16, d: u8, value: u16) -> Code
    requires first_in { first < 0xF800 }
    requires d_in { d < 16 }
    ensures { result ≡ move_pair first d value }
{
    Code::Pair(
        first + value / 0x800 % 2 * 0x400 + value / 0x1000,
        value / 0x100 % 8 * 0x1000 + u16::from(d) * 0x100 + value % 0x100,
    )
}

#[tactic(auto, unfolding(machine_thumb::specs::Table::encode))]
fn divide(op: u8, n: u8, d: u8, m: u8) -> Code
    requires { InTable (Instr.Divide op n d m) }
    ensures { result ≡ encode (Instr.Divide op n d m) }
{
    let fixed = if op == 0 { 0xFBB0 } else { 0xFB90 };
    Code::Pair(
        fixed + u16::from(n),
        0xF0F0 + u16::from(d) * 0x100 + u16::from(m),
    )
}

#[tactic(auto, unfolding(machine_thumb::specs::Table::encode))]
fn special_register(op: u8, n: u8, d: u8, s: u8) -> Code
    requires { InTable (Instr.SpecialRegister op n d s) }
    ensures { result ≡ encode (Instr.SpecialRegister op n d s) }
{
    if op == 0 {
        Code::Pair(0xF380 + u16::from(n), 0x8800 + u16::from(s))
    } else {
        Code::Pair(0xF3EF, 0x8000 + u16::from(d) * 0x100 + u16::from(s))
    }
}
