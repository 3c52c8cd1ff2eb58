//! The code of one step, for each of its forms.

ghost use Rattle.std.specs.Prelude.{◌≡◌, ◌+◌, ◌/◌, ◌%◌, ◌<◌, ◌^◌, [], ◌∷◌, OnOk, pos};
ghost use Rattle.machine_thumb.specs.Bytes.{EachInTable};
ghost use Rattle.machine_thumb.specs.declared.table.Instr.TheVariants as instr;
ghost use Rattle.machine_thumb_asm.specs.Assembly as assembly;
ghost use Rattle.machine_model.specs.Running.{code_size};
ghost use Rattle.base_words.specs.Width.{byte_count};
ghost use Rattle.monitor_steps.specs.Steps as list;
ghost use Rattle.monitor_steps.specs.Code as list_code;
ghost use Rattle.monitor_steps.specs.Code.{two_address, operation_code, code};
ghost use Rattle.monitor_assembler.specs.Emitted.{MayPut, HasPut, choice_code, loop_head, loop_end};

use base_words::memory::Width;
use machine_thumb::Instr;
use machine_thumb_asm::Asm;
use monitor_steps::{PrivilegedCond, PrivilegedOp};
use std::alloc::AllocError;

/// Puts instructions in order.
pub(crate) fn put_all(code: &[Instr], asm: &mut Asm) -> Result<(), AllocError>
    requires in_table { EachInTable code.now }
    requires room { assembly.here asm.old + code_size code.now < 2 ^ 31 }
    ensures { OnOk result (HasPut asm.old asm.new code.now) }
{
    for instruction in code {
        asm.emit(instruction)?;
    }
    Ok(())
}

/// Puts MOVW and MOVT.
pub(crate) fn put_const(to: u8, value: u32, asm: &mut Asm) -> Result<(), AllocError>
    requires { MayPut asm.old (list.Const to value list.End) }
    ensures { OnOk result (HasPut asm.old asm.new (code (list.Const to value list.End))) }
{
    let low = (value % 0x1_0000) as u16;
    let high = (value / 0x1_0000) as u16;
    put_all(
        &[
            Instr::MoveWide { d: to, value: low },
            Instr::MoveTop { d: to, value: high },
        ],
        asm,
    )
}

/// Puts MOV.
pub(crate) fn put_copy(to: u8, from: u8, asm: &mut Asm) -> Result<(), AllocError>
    requires { MayPut asm.old (list.Copy to from list.End) }
    ensures { OnOk result (HasPut asm.old asm.new (code (list.Copy to from list.End))) }
{
    put_all(
        &[Instr::HighRegister {
            op: 2,
            m: from,
            d: to,
        }],
        asm,
    )
}

/// Puts LDR, LDRH or LDRB, the offset counted in widths.
pub(crate) fn put_load(
    width: Width,
    to: u8,
    base: u8,
    offset: u8,
    asm: &mut Asm,
) -> Result<(), AllocError>
    requires { MayPut asm.old (list.Load width to base (offset / byte_count width) list.End) }
    ensures { OnOk result (HasPut asm.old asm.new (code (list.Load width to base (offset / byte_count width) list.End))) }
{
    let (op, imm5) = match width {
        Width::Byte => (3, offset),
        Width::Half => (5, offset / 2),
        Width::Word => (1, offset / 4),
    };
    put_all(
        &[Instr::TransferImmediate {
            op,
            imm5,
            n: base,
            t: to,
        }],
        asm,
    )
}

/// Puts STR, STRH or STRB, the offset counted in widths.
pub(crate) fn put_store(
    width: Width,
    from: u8,
    base: u8,
    offset: u8,
    asm: &mut Asm,
) -> Result<(), AllocError>
    requires { MayPut asm.old (list.Store width from base (offset / byte_count width) list.End) }
    ensures { OnOk result (HasPut asm.old asm.new (code (list.Store width from base (offset / byte_count width) list.End))) }
{
    let (op, imm5) = match width {
        Width::Byte => (2, offset),
        Width::Half => (4, offset / 2),
        Width::Word => (0, offset / 4),
    };
    put_all(
        &[Instr::TransferImmediate {
            op,
            imm5,
            n: base,
            t: from,
        }],
        asm,
    )
}

/// Puts an operation of the form `op d, d, m`, with moves around it where the destination is not the first operand.
fn put_two_address(op: u8, to: u8, a: u8, b: u8, asm: &mut Asm) -> Result<(), AllocError>
    requires op { op < 16 }
    requires to { to < 8 }
    requires a { a < 8 }
    requires b { b < 8 }
    requires room { assembly.here asm.old + code_size (two_address op to a b) < 2 ^ 31 }
    ensures { OnOk result (HasPut asm.old asm.new (two_address op to a b)) }
{
    if to == a {
        put_all(&[Instr::DataRegister { op, m: b, d: to }], asm)
    } else if to == b {
        put_all(
            &[
                Instr::HighRegister { op: 2, m: a, d: 12 },
                Instr::DataRegister { op, m: b, d: a },
                Instr::HighRegister { op: 2, m: a, d: to },
                Instr::HighRegister { op: 2, m: 12, d: a },
            ],
            asm,
        )
    } else {
        put_all(
            &[
                Instr::HighRegister { op: 2, m: a, d: to },
                Instr::DataRegister { op, m: b, d: to },
            ],
            asm,
        )
    }
}

/// Puts an operation on the registers `a` and `b`.
pub(crate) fn put_operation(
    op: PrivilegedOp,
    to: u8,
    a: u8,
    b: u8,
    asm: &mut Asm,
) -> Result<(), AllocError>
    requires { MayPut asm.old (list.Alu op to a b list.End) }
    ensures { OnOk result (HasPut asm.old asm.new (operation_code op to a b)) }
{
    match op {
        PrivilegedOp::Add => put_all(
            &[Instr::AddSubRegister {
                op: 0,
                m: b,
                n: a,
                d: to,
            }],
            asm,
        ),
        PrivilegedOp::Sub => put_all(
            &[Instr::AddSubRegister {
                op: 1,
                m: b,
                n: a,
                d: to,
            }],
            asm,
        ),
        PrivilegedOp::And => put_two_address(0, to, a, b, asm),
        PrivilegedOp::Or => put_two_address(12, to, a, b, asm),
        PrivilegedOp::Shl => put_two_address(2, to, a, b, asm),
        PrivilegedOp::Shr => put_two_address(3, to, a, b, asm),
    }
}

/// Puts MRS of the process stack pointer.
pub(crate) fn put_read_psp(to: u8, asm: &mut Asm) -> Result<(), AllocError>
    requires { MayPut asm.old (list.ReadPsp to list.End) }
    ensures { OnOk result (HasPut asm.old asm.new (code (list.ReadPsp to list.End))) }
{
    put_all(
        &[Instr::SpecialRegister {
            op: 1,
            n: 0,
            d: to,
            s: 9,
        }],
        asm,
    )
}

/// Puts MSR of the process stack pointer.
pub(crate) fn put_write_psp(from: u8, asm: &mut Asm) -> Result<(), AllocError>
    requires { MayPut asm.old (list.WritePsp from list.End) }
    ensures { OnOk result (HasPut asm.old asm.new (code (list.WritePsp from list.End))) }
{
    put_all(
        &[Instr::SpecialRegister {
            op: 0,
            n: from,
            d: 0,
            s: 9,
        }],
        asm,
    )
}

/// Puts MSR of CONTROL, and an ISB.
pub(crate) fn put_write_control(from: u8, asm: &mut Asm) -> Result<(), AllocError>
    requires { MayPut asm.old (list.WriteControl from list.End) }
    ensures { OnOk result (HasPut asm.old asm.new (code (list.WriteControl from list.End))) }
{
    put_all(
        &[
            Instr::SpecialRegister {
                op: 0,
                n: from,
                d: 0,
                s: 20,
            },
            Instr::Barrier { op: 1 },
        ],
        asm,
    )
}

/// Puts BKPT.
pub(crate) fn put_halt(number: u8, asm: &mut Asm) -> Result<(), AllocError>
    requires { MayPut asm.old (list.Halt number list.End) }
    ensures { OnOk result (HasPut asm.old asm.new (code (list.Halt number list.End))) }
{
    put_all(
        &[Instr::BreakpointNop {
            op: 0,
            imm8: number,
        }],
        asm,
    )
}

/// Puts DSB, ISB and BX LR.
pub(crate) fn put_return(asm: &mut Asm) -> Result<(), AllocError>
    requires { MayPut asm.old (list.Return list.End) }
    ensures { OnOk result (HasPut asm.old asm.new (code (list.Return list.End))) }
{
    put_all(
        &[
            Instr::Barrier { op: 0 },
            Instr::Barrier { op: 1 },
            Instr::BranchExchange { op: 0, m: 14 },
        ],
        asm,
    )
}

/// Puts MOV to LR, and BX.
pub(crate) fn put_go(to: u8, link: u8, asm: &mut Asm) -> Result<(), AllocError>
    requires { MayPut asm.old (list.Go to link list.End) }
    ensures { OnOk result (HasPut asm.old asm.new (code (list.Go to link list.End))) }
{
    put_all(
        &[
            Instr::HighRegister {
                op: 2,
                m: link,
                d: 14,
            },
            Instr::BranchExchange { op: 0, m: to },
        ],
        asm,
    )
}

/// The number of the condition that holds after CMP.
fn condition_number(cond: PrivilegedCond) -> u8
    ensures { result ≡ list_code.condition_number cond }
{
    match cond {
        PrivilegedCond::Eq => 0,
        PrivilegedCond::Ult => 3,
        PrivilegedCond::Ule => 9,
    }
}

/// Puts CMP, and the branches to one of two lists, the first of which has so many bytes.
pub(crate) fn put_choice(
    cond: PrivilegedCond,
    a: u8,
    b: u8,
    length: u32,
    asm: &mut Asm,
) -> Result<(), AllocError>
    requires a { a < 8 }
    requires b { b < 8 }
    requires even { length % 2 ≡ 0 }
    requires short { length + 4 < 2 ^ 24 }
    requires room { assembly.here asm.old + 8 < 2 ^ 31 }
    ensures { OnOk result (HasPut asm.old asm.new (choice_code cond a b length)) }
{
    put_all(
        &[
            Instr::DataRegister { op: 10, m: b, d: a },
            Instr::BranchConditional {
                cond: condition_number(cond),
                offset: 2,
            },
            Instr::BranchWide {
                offset: (length + 4) as i32,
            },
        ],
        asm,
    )
}

/// Puts the branch behind the first of two lists past the second, which has so many bytes.
pub(crate) fn put_skip(length: u32, asm: &mut Asm) -> Result<(), AllocError>
    requires even { length % 2 ≡ 0 }
    requires short { length < 2 ^ 24 }
    requires room { assembly.here asm.old + 4 < 2 ^ 31 }
    ensures { OnOk result (HasPut asm.old asm.new (instr.BranchWide (pos length) ∷ [])) }
{
    put_all(
        &[Instr::BranchWide {
            offset: length as i32,
        }],
        asm,
    )
}

/// Puts the beginning of a loop over a list that has so many bytes.
pub(crate) fn put_loop_head(left: u8, length: u32, asm: &mut Asm) -> Result<(), AllocError>
    requires left { left < 8 }
    requires even { length % 2 ≡ 0 }
    requires short { length + 6 < 2 ^ 24 }
    requires room { assembly.here asm.old + 8 < 2 ^ 31 }
    ensures { OnOk result (HasPut asm.old asm.new (loop_head left length)) }
{
    put_all(
        &[
            Instr::DataImmediate {
                op: 1,
                d: left,
                imm8: 0,
            },
            Instr::BranchConditional { cond: 1, offset: 2 },
            Instr::BranchWide {
                offset: (length + 6) as i32,
            },
        ],
        asm,
    )
}

/// Puts the end of a loop over a list that has so many bytes.
pub(crate) fn put_loop_end(left: u8, length: u32, asm: &mut Asm) -> Result<(), AllocError>
    requires left { left < 8 }
    requires even { length % 2 ≡ 0 }
    requires short { length + 14 < 2 ^ 24 }
    requires room { assembly.here asm.old + 6 < 2 ^ 31 }
    ensures { OnOk result (HasPut asm.old asm.new (loop_end left length)) }
{
    put_all(
        &[
            Instr::DataImmediate {
                op: 3,
                d: left,
                imm8: 1,
            },
            Instr::BranchWide {
                offset: -((length + 14) as i32),
            },
        ],
        asm,
    )
}
