//! The words of the language.

use base_words::memory::Width;

/// An operation on two registers.
#[derive(Clone, Copy)]
pub enum PrivilegedOp {
    /// The sum modulo 2^32.
    Add,
    /// The difference modulo 2^32.
    Sub,
    /// Bitwise and.
    And,
    /// Bitwise or.
    Or,
    /// A shift to the left by the second register's lowest byte (A7.7.68 LSL).
    Shl,
    /// A logical shift to the right by the second register's lowest byte (A7.7.70 LSR).
    Shr,
}

/// A comparison of two registers as unsigned numbers.
#[derive(Clone, Copy)]
pub enum PrivilegedCond {
    /// Equal.
    Eq,
    /// Below.
    Ult,
    /// At most.
    Ule,
}

/// One step of privileged code (A7.7). It works on r0 to r7, which are named by their numbers.
#[derive(Drop)]
pub enum PrivilegedStep {
    /// A number into a register (MOVW and MOVT).
    Const {
        to: u8,
        value: u32,
    },
    /// Another register's value into a register (MOV).
    Copy {
        to: u8,
        from: u8,
    },
    /// A value of memory, with zeros before it, into a register (LDR, LDRH, LDRB). It stands `offset` bytes behind the
    /// address in the register `base`; the offset is a multiple of the width, and at most 31 times the width.
    Load {
        to: u8,
        base: u8,
        offset: u8,
        width: Width,
    },
    /// The low bytes of a register into memory, at the places of `Load` (STR, STRH, STRB).
    Store {
        from: u8,
        base: u8,
        offset: u8,
        width: Width,
    },
    /// What an operation on the registers `a` and `b` gives into a register.
    Alu {
        op: PrivilegedOp,
        to: u8,
        a: u8,
        b: u8,
    },
    /// The process stack pointer into a register (MRS, B5.2.2).
    ReadPsp {
        to: u8,
    },
    /// A register's value into the process stack pointer (MSR, B5.2.3).
    WritePsp {
        from: u8,
    },
    /// A register's value into CONTROL, with an ISB behind it (MSR, B1.4.4).
    WriteControl {
        from: u8,
    },
    /// One of two lists, by a comparison of the registers `a` and `b`.
    Test {
        cond: PrivilegedCond,
        a: u8,
        b: u8,
        yes: Vec<PrivilegedStep>,
        no: Vec<PrivilegedStep>,
    },
    /// A list while the register `left` isn't 0; one is taken off `left` behind each turn, of which there are at most
    /// `most`.
    Repeat {
        left: u8,
        most: u32,
        body: Vec<PrivilegedStep>,
    },
    /// The end of the machine, with a number (BKPT).
    Halt {
        code: u8,
    },
    /// The exception return, BX LR behind a DSB and an ISB (B1.5.8).
    Return,
    /// A branch to the address in the register `to`, the link register taken from the register `link` (BX).
    Go {
        to: u8,
        link: u8,
    },
}
