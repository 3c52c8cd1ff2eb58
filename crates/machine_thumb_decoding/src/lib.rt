//! The way from halfwords to an instruction, group by group as the manual has its encodings (A5.2, A5.3).
#![tactic(auto)]

ghost use Rattle.std.specs.Prelude.{◌≡◌, ◌+◌, ◌*◌, ◌/◌, ◌%◌, ◌^◌, ◌<◌, ◌≤◌, IfSome, IfNone, MatchOption, Some, None};
ghost use Rattle.machine_thumb.specs.Table.{Encodes, read_code, width_of};
ghost use Rattle.machine_thumb.specs.Laws.{IsUndefined};
ghost use Rattle.machine_thumb.specs.Decoded.{decoded, arithmetic_of, special_of, transfer_of, stack_of, multiple_of, upper_of, narrow_of, is_general, branch_bits, move_of, special_register_of, divide_of, wide_of, extended};

use machine_thumb::Instr;

/// The instruction that begins with the halfword `h1`, and how many bytes it is: 2 or 4. `h2` is the
/// halfword behind it, which matters only where `h1` begins an instruction of two (A5.1). None where
/// the halfwords are of no instruction of the table.
#[tactic(auto, unfolding(machine_thumb::specs::Decoded::decoded))]
pub fn decode(h1: u16, h2: u16) -> Option<(Instr, u8)>
    ensures related { IfSome result (λ found. Encodes (read_code h1 h2) found.0) }
    ensures width { IfSome result (λ found. found.1 ≡ width_of (read_code h1 h2)) }
    ensures undefined { IfNone result (IsUndefined (read_code h1 h2)) }

    // The same as one function of the halfwords.
    ensures computed { MatchOption result (decoded h1 h2 ≡ None) (λ found. decoded h1 h2 ≡ Some found.0) }
{
    if h1 < 0xE800 {
        Some((narrow(h1)?, 2))
    } else {
        Some((wide(h1, h2)?, 4))
    }
}

// One halfword.
#[tactic(auto, unfolding(machine_thumb::specs::Decoded::narrow_of))]
fn narrow(h: u16) -> Option<Instr>
    requires { h < 0xE800 }
    ensures { result ≡ narrow_of h }
{
    if h < 0x4000 {
        Some(arithmetic(h))
    } else if h < 0x9000 {
        transfer(h)
    } else {
        upper(h)
    }
}

// Shifts, sums and numbers (A5.2.1).
#[tactic(auto, unfolding(machine_thumb::specs::Decoded::arithmetic_of))]
fn arithmetic(h: u16) -> Instr
    requires { h < 0x4000 }
    ensures { Some result ≡ arithmetic_of h }
{
    let low = (h & 7) as u8;
    let middle = (h >> 3 & 7) as u8;
    if h < 0x1800 {
        Instr::ShiftImmediate {
            op: (h >> 11) as u8,
            imm5: (h >> 6 & 0x1F) as u8,
            m: middle,
            d: low,
        }
    } else if h < 0x1C00 {
        Instr::AddSubRegister {
            op: (h >> 9 & 1) as u8,
            m: (h >> 6 & 7) as u8,
            n: middle,
            d: low,
        }
    } else if h < 0x2000 {
        Instr::AddSubImmediate {
            op: (h >> 9 & 1) as u8,
            imm3: (h >> 6 & 7) as u8,
            n: middle,
            d: low,
        }
    } else {
        Instr::DataImmediate {
            op: (h >> 11 & 3) as u8,
            d: (h >> 8 & 7) as u8,
            imm8: (h & 0xFF) as u8,
        }
    }
}

// Registers, literals, loads and stores (A5.2.2 to A5.2.4).
#[tactic(auto, unfolding(machine_thumb::specs::Decoded::transfer_of))]
fn transfer(h: u16) -> Option<Instr>
    requires above { 0x4000 ≤ h }
    requires below { h < 0x9000 }
    ensures { result ≡ transfer_of h }
{
    let low = (h & 7) as u8;
    let middle = (h >> 3 & 7) as u8;
    if h < 0x4400 {
        Some(Instr::DataRegister {
            op: (h >> 6 & 0xF) as u8,
            m: middle,
            d: low,
        })
    } else if h < 0x4800 {
        special(h)
    } else if h < 0x5000 {
        Some(Instr::LoadLiteral {
            t: (h >> 8 & 7) as u8,
            imm8: (h & 0xFF) as u8,
        })
    } else if h < 0x6000 {
        Some(Instr::TransferRegister {
            op: (h >> 9 & 7) as u8,
            m: (h >> 6 & 7) as u8,
            n: middle,
            t: low,
        })
    } else {
        Some(Instr::TransferImmediate {
            op: (h >> 11) as u8 - 12,
            imm5: (h >> 6 & 0x1F) as u8,
            n: middle,
            t: low,
        })
    }
}

// High registers, BX and BLX (A5.2.3).
#[tactic(auto, unfolding(machine_thumb::specs::Decoded::special_of))]
fn special(h: u16) -> Option<Instr>
    requires above { 0x4400 ≤ h }
    requires below { h < 0x4800 }
    ensures { result ≡ special_of h }
{
    let op = (h >> 8 & 3) as u8;
    let m = (h >> 3 & 0xF) as u8;
    let d = (h >> 7 & 1) as u8 * 8 + (h & 7) as u8;
    if m == 15 {
        None
    } else if h < 0x4700 {
        if d == 15 || op == 1 && m < 8 && d < 8 {
            None
        } else {
            Some(Instr::HighRegister { op, m, d })
        }
    } else if h & 7 == 0 {
        Some(Instr::BranchExchange {
            op: (h >> 7 & 1) as u8,
            m,
        })
    } else {
        None
    }
}

// What is relative to the stack pointer, many registers, branches (A5.2.5 and A5.2.6).
#[tactic(auto, unfolding(machine_thumb::specs::Decoded::upper_of))]
fn upper(h: u16) -> Option<Instr>
    requires above { 0x9000 ≤ h }
    requires below { h < 0xE800 }
    ensures { result ≡ upper_of h }
{
    let register = (h >> 8 & 7) as u8;
    let imm8 = (h & 0xFF) as u8;
    if h < 0xA000 {
        Some(Instr::StackRelative {
            op: (h >> 11 & 1) as u8,
            t: register,
            d: 0,
            imm8,
        })
    } else if h < 0xA800 {
        None
    } else if h < 0xB000 {
        Some(Instr::StackRelative {
            op: 2,
            t: 0,
            d: register,
            imm8,
        })
    } else if h < 0xC000 {
        stack(h)
    } else if h < 0xD000 {
        multiple(h)
    } else if h < 0xDE00 {
        Some(Instr::BranchConditional {
            cond: (h >> 8 & 0xF) as u8,
            offset: extend(0x80, u32::from(imm8)),
        })
    } else if h < 0xDF00 {
        None
    } else if h < 0xE000 {
        Some(Instr::CallBranch {
            op: 0,
            imm8,
            offset: 0,
        })
    } else {
        Some(Instr::CallBranch {
            op: 1,
            imm8: 0,
            offset: extend(0x400, u32::from(h & 0x7FF)),
        })
    }
}

// The stack pointer, PUSH, POP, BKPT and NOP (A5.2.5).
#[tactic(auto, unfolding(machine_thumb::specs::Decoded::stack_of))]
fn stack(h: u16) -> Option<Instr>
    requires above { 0xB000 ≤ h }
    requires below { h < 0xC000 }
    ensures { result ≡ stack_of h }
{
    let further = (h >> 8 & 1) as u8;
    let low = (h & 0xFF) as u8;
    if h < 0xB100 {
        Some(Instr::AdjustStack {
            op: (h >> 7 & 1) as u8,
            imm7: (h & 0x7F) as u8,
        })
    } else if h <= 0xB400 {
        None
    } else if h < 0xB600 {
        Some(Instr::PushPop {
            op: 0,
            m: further,
            p: 0,
            list: low,
        })
    } else if h <= 0xBC00 {
        None
    } else if h < 0xBE00 {
        Some(Instr::PushPop {
            op: 1,
            m: 0,
            p: further,
            list: low,
        })
    } else if h < 0xBF00 {
        Some(Instr::BreakpointNop { op: 0, imm8: low })
    } else if h == 0xBF00 {
        Some(Instr::BreakpointNop { op: 1, imm8: 0 })
    } else {
        None
    }
}

// Many registers.
#[tactic(auto, unfolding(machine_thumb::specs::Decoded::multiple_of))]
fn multiple(h: u16) -> Option<Instr>
    requires above { 0xC000 ≤ h }
    requires below { h < 0xD000 }
    ensures { result ≡ multiple_of h }
{
    let op = (h >> 11 & 1) as u8;
    let n = (h >> 8 & 7) as u8;
    let list = (h & 0xFF) as u8;
    let base = 1u16 << n;
    let has_base = u16::from(list) / base % 2 == 1;
    let has_lower = u16::from(list) % base > 0;
    if list == 0 || op == 0 && has_base && has_lower {
        None
    } else {
        Some(Instr::TransferMultiple { op, n, list })
    }
}

// SignExtend(bits:'0', 32), where `half` is the value of the highest of the bits.
fn extend(half: u32, bits: u32) -> i32
    requires room { half ≤ 2 ^ 23 }
    requires below { bits < 2 * half }
    ensures { result ≡ extended half bits }
{
    let word = if bits < half {
        2 * bits
    } else {
        0xFFFF_FFFF - (4 * half - 1) + 2 * bits
    };
    word.cast_signed()
}

// Two halfwords (A5.3).
#[tactic(auto, unfolding(machine_thumb::specs::Decoded::wide_of))]
fn wide(h: u16, k: u16) -> Option<Instr>
    requires { 0xE800 ≤ h }
    ensures { result ≡ wide_of h k }
{
    if h < 0xF000 {
        None
    } else if h >= 0xF800 {
        divide(h, k)
    } else if k < 0x8000 {
        move_wide(h, k)
    } else if k >> 12 & 1 == 1 {
        let offset = branch_offset(h, k);
        if k < 0xC000 {
            Some(Instr::BranchWide { offset })
        } else {
            Some(Instr::BranchLink { offset })
        }
    } else if k < 0x9000 {
        special_register(h, k)
    } else {
        None
    }
}

// Is a register neither the stack pointer nor the program counter?
fn is_general_register(register: u8) -> bool
    ensures { result ≡ is_general register }
{
    register < 13 || register == 14
}

// The distance S:I1:I2:imm10:imm11:0, where I is NOT(J EOR S).
fn branch_offset(h: u16, k: u16) -> i32
    requires first { 0xF000 ≤ h }
    requires below { h < 0xF800 }
    ensures { result ≡ extended (2 ^ 23) (branch_bits h k) }
{
    let s = u32::from(h >> 10 & 1);
    let i1 = (u32::from(k >> 13 & 1) + s + 1) % 2;
    let i2 = (u32::from(k >> 11 & 1) + s + 1) % 2;
    let upper = s * 0x80_0000 + i1 * 0x40_0000 + i2 * 0x20_0000;
    extend(
        0x80_0000,
        upper + u32::from(h & 0x3FF) * 0x800 + u32::from(k & 0x7FF),
    )
}

// MOVW and MOVT (A5.3.3).
#[tactic(auto, unfolding(machine_thumb::specs::Decoded::move_of))]
fn move_wide(h: u16, k: u16) -> Option<Instr>
    requires { k < 0x8000 }
    ensures { result ≡ move_of h k }
{
    let d = (k >> 8 & 0xF) as u8;
    let value = (h & 0xF) * 0x1000 + (h >> 10 & 1) * 0x800 + (k >> 12 & 7) * 0x100 + (k & 0xFF);
    if !is_general_register(d) {
        None
    } else if h >> 4 & 0x3F == 36 {
        Some(Instr::MoveWide { d, value })
    } else if h >> 4 & 0x3F == 44 {
        Some(Instr::MoveTop { d, value })
    } else {
        None
    }
}

// MSR, MRS, DSB and ISB (A5.3.4).
#[tactic(auto, unfolding(machine_thumb::specs::Decoded::special_register_of))]
fn special_register(h: u16, k: u16) -> Option<Instr>
    requires above { 0x8000 ≤ k }
    requires below { k < 0x9000 }
    ensures { result ≡ special_register_of h k }
{
    let n = (h & 0xF) as u8;
    let d = (k >> 8 & 0xF) as u8;
    let s = (k & 0xFF) as u8;
    if h == 0xF3BF {
        match k {
            0x8F4F => Some(Instr::Barrier { op: 0 }),
            0x8F6F => Some(Instr::Barrier { op: 1 }),
            _ => None,
        }
    } else if s != 8 && s != 9 && s != 20 {
        None
    } else if h == 0xF3EF && is_general_register(d) {
        Some(Instr::SpecialRegister { op: 1, n: 0, d, s })
    } else if h >> 4 == 0xF38 && d == 8 && is_general_register(n) {
        Some(Instr::SpecialRegister { op: 0, n, d: 0, s })
    } else {
        None
    }
}

// The divisions (A5.3.17).
#[tactic(auto, unfolding(machine_thumb::specs::Decoded::divide_of))]
fn divide(h: u16, k: u16) -> Option<Instr>
    requires { 0xF800 ≤ h }
    ensures { result ≡ divide_of h k }
{
    let n = (h & 0xF) as u8;
    let d = (k >> 8 & 0xF) as u8;
    let m = (k & 0xF) as u8;
    let is_form = k >> 12 == 0xF && k >> 4 & 0xF == 0xF;
    if !is_form || !is_general_register(n) || !is_general_register(d) || !is_general_register(m) {
        None
    } else if h >> 4 == 0xFBB {
        Some(Instr::Divide { op: 0, n, d, m })
    } else if h >> 4 == 0xFB9 {
        Some(Instr::Divide { op: 1, n, d, m })
    } else {
        None
    }
}
