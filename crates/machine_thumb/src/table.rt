// The instructions, one variant a form of encoding, and their halfwords.

/// One instruction. A variant is one form of encoding and has a field for each of its parts: `d`,
/// `n`, `m` and `t` are registers as in the Armv7-M Architecture Reference Manual (A7.7), `imm5`
/// and the like the bits of a number as they stand in the halfword. Where a form has several
/// instructions, `op` says which, and a field is 0 where the encoding has no bits for it. The
/// offset of a branch is in bytes, counted from the address of the branch plus 4.
#[derive(Clone, Copy)]
pub enum Instr {
    /// LSL (immediate) T1 with `op` 0, LSR (immediate) T1 with 1, ASR (immediate) T1 with 2. `imm5`
    /// 0 is a move (MOV (register) T2) in the first, and a shift by 32 in the others.
    ShiftImmediate { op: u8, imm5: u8, m: u8, d: u8 },
    /// ADD (register) T1 with `op` 0, SUB (register) T1 with 1.
    AddSubRegister { op: u8, m: u8, n: u8, d: u8 },
    /// ADD (immediate) T1 with `op` 0, SUB (immediate) T1 with 1.
    AddSubImmediate { op: u8, imm3: u8, n: u8, d: u8 },
    /// MOV (immediate) T1 with `op` 0, CMP (immediate) T1 with 1, ADD (immediate) T2 with 2, SUB
    /// (immediate) T2 with 3. `d` is the manual's Rdn or, of CMP, its Rn.
    DataImmediate { op: u8, d: u8, imm8: u8 },
    /// By `op`, from 0 to 15: AND (register) T1, EOR (register) T1, LSL (register) T1, LSR
    /// (register) T1, ASR (register) T1, ADC (register) T1, SBC (register) T1, ROR (register) T1,
    /// TST (register) T1, RSB (immediate) T1, CMP (register) T1, CMN (register) T1, ORR (register)
    /// T1, MUL T1, BIC (register) T1, MVN (register) T1. `d` is the register in bits 2 to 0, `m`
    /// that in bits 5 to 3.
    DataRegister { op: u8, m: u8, d: u8 },
    /// ADD (register) T2 with `op` 0, CMP (register) T2 with 1, MOV (register) T1 with 2. `d` is
    /// the manual's DN:Rdn, N:Rn or D:Rd.
    HighRegister { op: u8, m: u8, d: u8 },
    /// BX T1 with `op` 0, BLX (register) T1 with 1.
    BranchExchange { op: u8, m: u8 },
    /// LDR (literal) T1.
    LoadLiteral { t: u8, imm8: u8 },
    /// By `op`, from 0 to 7: STR (register) T1, STRH (register) T1, STRB (register) T1, LDRSB
    /// (register) T1, LDR (register) T1, LDRH (register) T1, LDRB (register) T1, LDRSH (register)
    /// T1.
    TransferRegister { op: u8, m: u8, n: u8, t: u8 },
    /// By `op`, from 0 to 5: STR (immediate) T1, LDR (immediate) T1, STRB (immediate) T1, LDRB
    /// (immediate) T1, STRH (immediate) T1, LDRH (immediate) T1.
    TransferImmediate { op: u8, imm5: u8, n: u8, t: u8 },
    /// STR (immediate) T2 with `op` 0, LDR (immediate) T2 with 1, both with `d` 0; ADD (SP plus
    /// immediate) T1 with 2 and `t` 0.
    StackRelative { op: u8, t: u8, d: u8, imm8: u8 },
    /// ADD (SP plus immediate) T2 with `op` 0, SUB (SP minus immediate) T1 with 1.
    AdjustStack { op: u8, imm7: u8 },
    /// PUSH T1 with `op` 0 and `p` 0, POP T1 with 1 and `m` 0. Bit k of `list` is register k; `m` 1
    /// adds the link register, and `p` 1 the program counter.
    PushPop { op: u8, m: u8, p: u8, list: u8 },
    /// BKPT T1 with `op` 0, NOP T1 with 1 and `imm8` 0.
    BreakpointNop { op: u8, imm8: u8 },
    /// STM T1 with `op` 0, LDM T1 with 1. Bit k of `list` is register k.
    TransferMultiple { op: u8, n: u8, list: u8 },
    /// B T1, with a condition from 0 to 13 (A7.3).
    BranchConditional { cond: u8, offset: i32 },
    /// SVC T1 with `op` 0 and `offset` 0, B T2 with 1 and `imm8` 0.
    CallBranch { op: u8, imm8: u8, offset: i32 },
    /// BL T1.
    BranchLink { offset: i32 },
    /// B T4.
    BranchWide { offset: i32 },
    /// MOV (immediate) T3, the mnemonic MOVW.
    MoveWide { d: u8, value: u16 },
    /// MOVT T1.
    MoveTop { d: u8, value: u16 },
    /// UDIV T1 with `op` 0, SDIV T1 with 1.
    Divide { op: u8, n: u8, d: u8, m: u8 },
    /// MSR T1 with `op` 0 and `d` 0, MRS T1 with 1 and `n` 0. `s` is the manual's SYSm (B5.1.1): 8
    /// is MSP, 9 PSP, 20 CONTROL.
    SpecialRegister { op: u8, n: u8, d: u8, s: u8 },
    /// DSB T1 with `op` 0, ISB T1 with 1, both of the full system.
    Barrier { op: u8 },
}

/// The halfwords of an instruction: one, or two with the first in front (A5.1).
#[derive(Clone, Copy)]
pub enum Code {
    /// An instruction of one halfword.
    Half(u16),
    /// An instruction of two halfwords.
    Pair(u16, u16),
}
