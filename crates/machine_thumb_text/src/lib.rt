//! The text of an instruction.
#![tactic(auto)]

use machine_thumb::Instr;
use std::alloc::{AllocError, Global};
use std::fmt;

const SUMS: [&str; 2] = ["adds", "subs"];

const SHIFTS: [&str; 3] = ["lsls", "lsrs", "asrs"];

const NUMBERS: [&str; 4] = ["movs", "cmp", "adds", "subs"];

const DATA: [&str; 16] = [
    "ands", "eors", "lsls", "lsrs", "asrs", "adcs", "sbcs", "rors", "tst", "negs", "cmp", "cmn",
    "orrs", "muls", "bics", "mvns",
];

const HIGH: [&str; 3] = ["add", "cmp", "mov"];

const EXCHANGES: [&str; 2] = ["bx", "blx"];

const BY_REGISTER: [&str; 8] = [
    "str", "strh", "strb", "ldrsb", "ldr", "ldrh", "ldrb", "ldrsh",
];

const BY_NUMBER: [&str; 6] = ["str", "ldr", "strb", "ldrb", "strh", "ldrh"];

const ADJUSTS: [&str; 2] = ["add", "sub"];

const MULTIPLES: [&str; 2] = ["stmia", "ldmia"];

const CONDITIONS: [&str; 14] = [
    "eq", "ne", "cs", "cc", "mi", "pl", "vs", "vc", "hi", "ls", "ge", "lt", "gt", "le",
];

const DIVISIONS: [&str; 2] = ["udiv", "sdiv"];

const BARRIERS: [&str; 2] = ["dsb", "isb"];

/// The text of an instruction as `arm-none-eabi-objdump -d -M reg-names-std` has it. A literal stands
/// as `[pc, #8]`, without its address, and the distance of a branch as `#+8` or `#-8`, in bytes from
/// the address of the branch plus 4, since no address is known. Where `op` is none of the form's, the
/// name is `?`.
pub fn show(alloc: Global, i: &Instr) -> Result<String, AllocError> {
    let text = Text(i);
    format!(in alloc; "{text}")
}

// The name at a place of a table.
fn name(names: &[&'static str], op: u8) -> &'static str {
    names.get(usize::from(op)).copied().unwrap_or("?")
}

// A register by its number.
#[derive(Clone, Copy)]
struct Register(u8);

impl fmt::Display for Register {
    fn fmt<W: fmt::Write>(&self, f: &mut fmt::Formatter<W>) -> fmt::Result {
        match self.0 {
            13 => f.write_str("sp"),
            14 => f.write_str("lr"),
            15 => f.write_str("pc"),
            number => write!(f, "r{number}"),
        }
    }
}

// The registers of a list, and one more behind them if it has a name.
#[derive(Clone, Copy)]
struct Registers {
    list: u8,
    further: &'static str,
}

impl fmt::Display for Registers {
    fn fmt<W: fmt::Write>(&self, f: &mut fmt::Formatter<W>) -> fmt::Result {
        f.write_str("{")?;
        let mut separator = "";
        for k in 0..8u8 {
            if self.list >> k & 1 == 1 {
                write!(f, "{separator}r{k}")?;
                separator = ", ";
            }
        }
        if !self.further.is_empty() {
            write!(f, "{separator}{}", self.further)?;
        }
        f.write_str("}")
    }
}

// An instruction, as its text.
#[derive(Clone, Copy)]
struct Text<'a>(&'a Instr);

impl<'a> fmt::Display for Text<'a> {
    fn fmt<W: fmt::Write>(&self, f: &mut fmt::Formatter<W>) -> fmt::Result {
        match *self.0 {
            Instr::ShiftImmediate { op, imm5, m, d } => write_shift(f, op, imm5, m, d),
            Instr::AddSubRegister { op, m, n, d } => write_three(f, name(&SUMS, op), d, n, m),
            Instr::AddSubImmediate { op, imm3, n, d } => write_sum(f, name(&SUMS, op), d, n, imm3),
            Instr::DataImmediate { op, d, imm8 } => {
                write_number(f, name(&NUMBERS, op), d, imm8.into())
            }
            Instr::DataRegister { op, m, d } => write_two(f, name(&DATA, op), d, m),
            Instr::HighRegister { op, m, d } => write_two(f, name(&HIGH, op), d, m),
            Instr::BranchExchange { op, m } => write_one(f, name(&EXCHANGES, op), m),
            Instr::AdjustStack { op, imm7 } => write_number(
                f,
                name(&ADJUSTS, op),
                13,
                u16::from(imm7) * 4,
            ),
            Instr::MoveWide { d, value } => write_number(f, "movw", d, value),
            Instr::MoveTop { d, value } => write_number(f, "movt", d, value),
            Instr::Divide { op, n, d, m } => write_three(f, name(&DIVISIONS, op), d, n, m),
            Instr::LoadLiteral { .. }
            | Instr::TransferRegister { .. }
            | Instr::TransferImmediate { .. } => { write_transfer(f, self.0) }
            Instr::StackRelative { .. } | Instr::PushPop { .. } | Instr::TransferMultiple { .. } =>
                { write_stack(f, self.0) }
            _ => write_control(f, self.0),
        }
    }
}

// A word with one register.
fn write_one<W: fmt::Write>(f: &mut fmt::Formatter<W>, word: &str, a: u8) -> fmt::Result {
    write!(f, "{word} {}", Register(a))
}

// A word with two registers.
fn write_two<W: fmt::Write>(f: &mut fmt::Formatter<W>, word: &str, a: u8, b: u8) -> fmt::Result {
    write!(f, "{word} {}, {}", Register(a), Register(b))
}

// A word with three registers.
fn write_three<W: fmt::Write>(
    f: &mut fmt::Formatter<W>,
    word: &str,
    a: u8,
    b: u8,
    c: u8,
) -> fmt::Result {
    write_two(f, word, a, b)?;
    write!(f, ", {}", Register(c))
}

// A word with a register and a number.
fn write_number<W: fmt::Write>(
    f: &mut fmt::Formatter<W>,
    word: &str,
    a: u8,
    number: u16,
) -> fmt::Result {
    write!(f, "{word} {}, #{number}", Register(a))
}

// A word with two registers and a number.
fn write_sum<W: fmt::Write>(
    f: &mut fmt::Formatter<W>,
    word: &str,
    a: u8,
    b: u8,
    number: u8,
) -> fmt::Result {
    write_two(f, word, a, b)?;
    write!(f, ", #{number}")
}

// LSL by 0 is a move, and LSR and ASR by 0 are by 32.
fn write_shift<W: fmt::Write>(
    f: &mut fmt::Formatter<W>,
    op: u8,
    imm5: u8,
    m: u8,
    d: u8,
) -> fmt::Result {
    match (op, imm5) {
        (0, 0) => write_two(f, "movs", d, m),
        (_, 0) => write_sum(f, name(&SHIFTS, op), d, m, 32),
        (_, number) => write_sum(f, name(&SHIFTS, op), d, m, number),
    }
}

// Loads and stores of one register.
fn write_transfer<W: fmt::Write>(f: &mut fmt::Formatter<W>, i: &Instr) -> fmt::Result {
    match *i {
        Instr::LoadLiteral { t, imm8 } => write_near(f, "ldr", t, 15, u16::from(imm8) * 4),
        Instr::TransferRegister { op, m, n, t } => {
            write_indexed(f, name(&BY_REGISTER, op), t, n, m)
        }
        Instr::TransferImmediate { op, imm5, n, t } => {
            let unit = match op {
                0 | 1 => 4,
                2 | 3 => 1,
                _ => 2,
            };
            let offset = u16::from(imm5) * unit;
            write_near(f, name(&BY_NUMBER, op), t, n, offset)
        }
        _ => f.write_str("?"),
    }
}

// A word with a register, and the address so many bytes behind another.
fn write_near<W: fmt::Write>(
    f: &mut fmt::Formatter<W>,
    word: &str,
    a: u8,
    base: u8,
    offset: u16,
) -> fmt::Result {
    write_one(f, word, a)?;
    write!(f, ", [{}, #{offset}]", Register(base))
}

// A word with a register, and the address that two others give.
fn write_indexed<W: fmt::Write>(
    f: &mut fmt::Formatter<W>,
    word: &str,
    a: u8,
    base: u8,
    index: u8,
) -> fmt::Result {
    write_one(f, word, a)?;
    write!(f, ", [{}, {}]", Register(base), Register(index))
}

// What is relative to the stack pointer, and loads and stores of many registers.
fn write_stack<W: fmt::Write>(f: &mut fmt::Formatter<W>, i: &Instr) -> fmt::Result {
    match *i {
        Instr::StackRelative { op: 2, d, imm8, .. } => {
            write_one(f, "add", d)?;
            write!(f, ", sp, #{}", u16::from(imm8) * 4)
        }
        Instr::StackRelative { op, t, imm8, .. } => {
            write_near(f, name(&BY_NUMBER, op), t, 13, u16::from(imm8) * 4)
        }
        Instr::PushPop { op: 0, m, list, .. } => write_list(f, "push", list, m, "lr"),
        Instr::PushPop { p, list, .. } => write_list(f, "pop", list, p, "pc"),
        Instr::TransferMultiple { op, n, list } => write_multiple(f, op, n, list),
        _ => f.write_str("?"),
    }
}

// A word with a list of registers, and one more behind them where a bit adds it.
fn write_list<W: fmt::Write>(
    f: &mut fmt::Formatter<W>,
    word: &str,
    list: u8,
    bit: u8,
    named: &'static str,
) -> fmt::Result {
    let further = if bit == 0 { "" } else { named };
    write!(f, "{word} {}", Registers { list, further })
}

// Loads and stores of many registers.
fn write_multiple<W: fmt::Write>(
    f: &mut fmt::Formatter<W>,
    op: u8,
    n: u8,
    list: u8,
) -> fmt::Result {
    let keeps_base = op == 1 && n < 8 && list >> n & 1 == 1;
    let mark = if keeps_base { "" } else { "!" };
    write_one(f, name(&MULTIPLES, op), n)?;
    write!(f, "{mark}, {}", Registers { list, further: "" })
}

// Branches, calls, and what concerns the processor.
fn write_control<W: fmt::Write>(f: &mut fmt::Formatter<W>, i: &Instr) -> fmt::Result {
    match *i {
        Instr::BreakpointNop { op: 0, imm8 } => write!(f, "bkpt {imm8:#06x}"),
        Instr::BreakpointNop { .. } => f.write_str("nop"),
        Instr::BranchConditional { cond, offset } => write_conditional(f, cond, offset.into()),
        Instr::CallBranch { op: 0, imm8, .. } => write!(f, "svc {imm8}"),
        Instr::CallBranch { offset, .. } => write_distance(f, "b.n", offset.into()),
        Instr::BranchLink { offset } => write_distance(f, "bl", offset),
        Instr::BranchWide { offset } => write_distance(f, "b.w", offset),
        Instr::SpecialRegister { op: 0, n, s, .. } => write_special(f, s, n),
        Instr::SpecialRegister { d, s, .. } => read_special(f, d, s),
        Instr::Barrier { op } => write!(f, "{} sy", name(&BARRIERS, op)),
        _ => f.write_str("?"),
    }
}

// A word with a distance.
fn write_distance<W: fmt::Write>(
    f: &mut fmt::Formatter<W>,
    word: &str,
    offset: i32,
) -> fmt::Result {
    write!(f, "{word} #{offset:+}")
}

// A branch on a condition.
fn write_conditional<W: fmt::Write>(
    f: &mut fmt::Formatter<W>,
    cond: u8,
    offset: i32,
) -> fmt::Result {
    write!(f, "b{}.n #{offset:+}", name(&CONDITIONS, cond))
}

// MSR: a special register, and the register that is moved to it.
fn write_special<W: fmt::Write>(f: &mut fmt::Formatter<W>, s: u8, n: u8) -> fmt::Result {
    write!(f, "msr {}, {}", special_name(s), Register(n))
}

// MRS: a register, and the special register that is moved to it.
fn read_special<W: fmt::Write>(f: &mut fmt::Formatter<W>, d: u8, s: u8) -> fmt::Result {
    write!(f, "mrs {}, {}", Register(d), special_name(s))
}

// A special register by its number in MSR and MRS.
fn special_name(s: u8) -> &'static str {
    match s {
        8 => "MSP",
        9 => "PSP",
        20 => "CONTROL",
        _ => "?",
    }
}
