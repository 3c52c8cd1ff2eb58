//! Instructions and their halfwords, as an assembler and a disassembler have them.

use machine_thumb::{Code, Instr};
use machine_thumb_decoding::decode;
use machine_thumb_encoding::encode;
use machine_thumb_text::show;
use std::alloc::Global;
use std::process::Abort;
use std::test::Fail;

/// The halfwords of one instruction of each form, the instruction, and its text.
#[rattlefmt::skip]
const FORMS: &[(u16, u16, Instr, &str)] = &[
    (0x10be, 0, Instr::ShiftImmediate { op: 2, imm5: 2, m: 7, d: 6 }, "asrs r6, r7, #2"),
    (0x1afe, 0, Instr::AddSubRegister { op: 1, m: 3, n: 7, d: 6 }, "subs r6, r7, r3"),
    (0x1d60, 0, Instr::AddSubImmediate { op: 0, imm3: 5, n: 4, d: 0 }, "adds r0, r4, #5"),
    (0x2be8, 0, Instr::DataImmediate { op: 1, d: 3, imm8: 232 }, "cmp r3, #232"),
    (0x43e1, 0, Instr::DataRegister { op: 15, m: 4, d: 1 }, "mvns r1, r4"),
    (0x4662, 0, Instr::HighRegister { op: 2, m: 12, d: 2 }, "mov r2, r12"),
    (0x47b0, 0, Instr::BranchExchange { op: 1, m: 6 }, "blx r6"),
    (0x4dff, 0, Instr::LoadLiteral { t: 5, imm8: 255 }, "ldr r5, [pc, #1020]"),
    (0x5ff8, 0, Instr::TransferRegister { op: 7, m: 7, n: 7, t: 0 }, "ldrsh r0, [r7, r7]"),
    (0x818d, 0, Instr::TransferImmediate { op: 4, imm5: 6, n: 1, t: 5 }, "strh r5, [r1, #12]"),
    (0xac7f, 0, Instr::StackRelative { op: 2, t: 0, d: 4, imm8: 127 }, "add r4, sp, #508"),
    (0xb096, 0, Instr::AdjustStack { op: 1, imm7: 22 }, "sub sp, #88"),
    (0xbd02, 0, Instr::PushPop { op: 1, m: 0, p: 1, list: 2 }, "pop {r1, pc}"),
    (0xbe12, 0, Instr::BreakpointNop { op: 0, imm8: 18 }, "bkpt 0x0012"),
    (0xc024, 0, Instr::TransferMultiple { op: 0, n: 0, list: 0x24 }, "stmia r0!, {r2, r5}"),
    (0xd0f1, 0, Instr::BranchConditional { cond: 0, offset: -30 }, "beq.n #-30"),
    (0xe1f3, 0, Instr::CallBranch { op: 1, imm8: 0, offset: 998 }, "b.n #+998"),
    (0xf425, 0xf4f7, Instr::BranchLink { offset: -8_234_514 }, "bl #-8234514"),
    (0xf000, 0xbfff, Instr::BranchWide { offset: 4094 }, "b.w #+4094"),
    (0xf64a, 0x4888, Instr::MoveWide { d: 8, value: 44168 }, "movw r8, #44168"),
    (0xf2cf, 0x46b2, Instr::MoveTop { d: 6, value: 62642 }, "movt r6, #62642"),
    (0xfb95, 0xf2fb, Instr::Divide { op: 1, n: 5, d: 2, m: 11 }, "sdiv r2, r5, r11"),
    (0xf3ef, 0x8809, Instr::SpecialRegister { op: 1, n: 0, d: 8, s: 9 }, "mrs r8, PSP"),
    (0xf3bf, 0x8f6f, Instr::Barrier { op: 1 }, "isb sy"),
];

/// Where the text has more than the fields.
#[rattlefmt::skip]
const TEXTS: &[(u16, u16, &str)] = &[
    (0x0025, 0, "movs r5, r4"),
    (0x0803, 0, "lsrs r3, r0, #32"),
    (0x9000, 0, "str r0, [sp, #0]"),
    (0xb510, 0, "push {r4, lr}"),
    (0xbf00, 0, "nop"),
    (0xc803, 0, "ldmia r0, {r0, r1}"),
    (0xdf01, 0, "svc 1"),
    (0xf380, 0x8814, "msr CONTROL, r0"),
];

/// Each operation of each form, and what it is encoded to.
#[rattlefmt::skip]
const ENCODED: &[(Instr, Code)] = &[
    (Instr::MoveWide { d: 0, value: 7 }, Code::Pair(0xf240, 0x0007)),
    (Instr::BranchLink { offset: 0 }, Code::Pair(0xf000, 0xf800)),
    (Instr::Divide { op: 0, n: 0, d: 0, m: 1 }, Code::Pair(0xfbb0, 0xf0f1)),
    (Instr::SpecialRegister { op: 0, n: 0, d: 0, s: 20 }, Code::Pair(0xf380, 0x8814)),
    (Instr::PushPop { op: 0, m: 1, p: 0, list: 0x10 }, Code::Half(0xb510)),
    (Instr::ShiftImmediate { op: 0, imm5: 13, m: 1, d: 5 }, Code::Half(0x034d)),
    (Instr::ShiftImmediate { op: 1, imm5: 6, m: 5, d: 2 }, Code::Half(0x09aa)),
    (Instr::ShiftImmediate { op: 2, imm5: 17, m: 1, d: 5 }, Code::Half(0x144d)),
    (Instr::AddSubRegister { op: 0, m: 6, n: 7, d: 0 }, Code::Half(0x19b8)),
    (Instr::AddSubRegister { op: 1, m: 3, n: 7, d: 1 }, Code::Half(0x1af9)),
    (Instr::AddSubImmediate { op: 0, imm3: 0, n: 4, d: 7 }, Code::Half(0x1c27)),
    (Instr::AddSubImmediate { op: 1, imm3: 1, n: 3, d: 2 }, Code::Half(0x1e5a)),
    (Instr::DataImmediate { op: 0, d: 3, imm8: 209 }, Code::Half(0x23d1)),
    (Instr::DataImmediate { op: 1, d: 6, imm8: 127 }, Code::Half(0x2e7f)),
    (Instr::DataImmediate { op: 2, d: 0, imm8: 128 }, Code::Half(0x3080)),
    (Instr::DataImmediate { op: 3, d: 5, imm8: 128 }, Code::Half(0x3d80)),
    (Instr::DataRegister { op: 0, m: 1, d: 0 }, Code::Half(0x4008)),
    (Instr::DataRegister { op: 1, m: 4, d: 1 }, Code::Half(0x4061)),
    (Instr::DataRegister { op: 2, m: 7, d: 6 }, Code::Half(0x40be)),
    (Instr::DataRegister { op: 3, m: 0, d: 6 }, Code::Half(0x40c6)),
    (Instr::DataRegister { op: 4, m: 1, d: 3 }, Code::Half(0x410b)),
    (Instr::DataRegister { op: 5, m: 6, d: 1 }, Code::Half(0x4171)),
    (Instr::DataRegister { op: 6, m: 4, d: 4 }, Code::Half(0x41a4)),
    (Instr::DataRegister { op: 7, m: 7, d: 2 }, Code::Half(0x41fa)),
    (Instr::DataRegister { op: 8, m: 0, d: 7 }, Code::Half(0x4207)),
    (Instr::DataRegister { op: 9, m: 4, d: 0 }, Code::Half(0x4260)),
    (Instr::DataRegister { op: 10, m: 0, d: 4 }, Code::Half(0x4284)),
    (Instr::DataRegister { op: 11, m: 1, d: 6 }, Code::Half(0x42ce)),
    (Instr::DataRegister { op: 12, m: 6, d: 0 }, Code::Half(0x4330)),
    (Instr::DataRegister { op: 13, m: 1, d: 0 }, Code::Half(0x4348)),
    (Instr::DataRegister { op: 14, m: 4, d: 1 }, Code::Half(0x43a1)),
    (Instr::DataRegister { op: 15, m: 0, d: 7 }, Code::Half(0x43c7)),
    (Instr::HighRegister { op: 0, m: 10, d: 12 }, Code::Half(0x44d4)),
    (Instr::HighRegister { op: 1, m: 11, d: 1 }, Code::Half(0x4559)),
    (Instr::HighRegister { op: 2, m: 14, d: 6 }, Code::Half(0x4676)),
    (Instr::BranchExchange { op: 0, m: 0 }, Code::Half(0x4700)),
    (Instr::BranchExchange { op: 1, m: 8 }, Code::Half(0x47c0)),
    (Instr::LoadLiteral { t: 2, imm8: 0 }, Code::Half(0x4a00)),
    (Instr::TransferRegister { op: 0, m: 6, n: 3, t: 6 }, Code::Half(0x519e)),
    (Instr::TransferRegister { op: 1, m: 5, n: 1, t: 1 }, Code::Half(0x5349)),
    (Instr::TransferRegister { op: 2, m: 3, n: 2, t: 6 }, Code::Half(0x54d6)),
    (Instr::TransferRegister { op: 3, m: 6, n: 2, t: 3 }, Code::Half(0x5793)),
    (Instr::TransferRegister { op: 4, m: 4, n: 0, t: 7 }, Code::Half(0x5907)),
    (Instr::TransferRegister { op: 5, m: 3, n: 7, t: 3 }, Code::Half(0x5afb)),
    (Instr::TransferRegister { op: 6, m: 3, n: 4, t: 6 }, Code::Half(0x5ce6)),
    (Instr::TransferRegister { op: 7, m: 2, n: 1, t: 0 }, Code::Half(0x5e88)),
    (Instr::TransferImmediate { op: 0, imm5: 11, n: 5, t: 6 }, Code::Half(0x62ee)),
    (Instr::TransferImmediate { op: 1, imm5: 6, n: 6, t: 0 }, Code::Half(0x69b0)),
    (Instr::TransferImmediate { op: 2, imm5: 12, n: 0, t: 5 }, Code::Half(0x7305)),
    (Instr::TransferImmediate { op: 3, imm5: 23, n: 5, t: 4 }, Code::Half(0x7dec)),
    (Instr::TransferImmediate { op: 4, imm5: 6, n: 1, t: 5 }, Code::Half(0x818d)),
    (Instr::TransferImmediate { op: 5, imm5: 4, n: 6, t: 1 }, Code::Half(0x8931)),
    (Instr::StackRelative { op: 0, t: 7, d: 0, imm8: 1 }, Code::Half(0x9701)),
    (Instr::StackRelative { op: 1, t: 0, d: 0, imm8: 255 }, Code::Half(0x98ff)),
    (Instr::StackRelative { op: 2, t: 0, d: 7, imm8: 7 }, Code::Half(0xaf07)),
    (Instr::AdjustStack { op: 0, imm7: 52 }, Code::Half(0xb034)),
    (Instr::AdjustStack { op: 1, imm7: 127 }, Code::Half(0xb0ff)),
    (Instr::PushPop { op: 0, m: 1, p: 0, list: 105 }, Code::Half(0xb569)),
    (Instr::PushPop { op: 1, m: 0, p: 1, list: 20 }, Code::Half(0xbd14)),
    (Instr::BreakpointNop { op: 0, imm8: 162 }, Code::Half(0xbea2)),
    (Instr::CallBranch { op: 0, imm8: 120, offset: 0 }, Code::Half(0xdf78)),
    (Instr::BreakpointNop { op: 1, imm8: 0 }, Code::Half(0xbf00)),
    (Instr::TransferMultiple { op: 0, n: 5, list: 31 }, Code::Half(0xc51f)),
    (Instr::TransferMultiple { op: 1, n: 5, list: 91 }, Code::Half(0xcd5b)),
    (Instr::BranchConditional { cond: 6, offset: 2 }, Code::Half(0xd601)),
    (Instr::BranchConditional { cond: 5, offset: 0 }, Code::Half(0xd500)),
    (Instr::CallBranch { op: 1, imm8: 0, offset: -610 }, Code::Half(0xe6cf)),
    (Instr::CallBranch { op: 1, imm8: 0, offset: 914 }, Code::Half(0xe1c9)),
    (Instr::BranchLink { offset: -12421096 }, Code::Pair(0xf427, 0xdc0c)),
    (Instr::BranchLink { offset: -10022886 }, Code::Pair(0xf671, 0xd80d)),
    (Instr::BranchWide { offset: -295920 }, Code::Pair(0xf7b7, 0xbe08)),
    (Instr::BranchWide { offset: -6257786 }, Code::Pair(0xf608, 0xb1c3)),
    (Instr::MoveWide { d: 12, value: 63921 }, Code::Pair(0xf64f, 0x1cb1)),
    (Instr::MoveWide { d: 8, value: 20505 }, Code::Pair(0xf245, 0x0819)),
    (Instr::MoveTop { d: 2, value: 32948 }, Code::Pair(0xf2c8, 0x02b4)),
    (Instr::MoveTop { d: 5, value: 21708 }, Code::Pair(0xf2c5, 0x45cc)),
    (Instr::Divide { op: 0, n: 14, d: 3, m: 1 }, Code::Pair(0xfbbe, 0xf3f1)),
    (Instr::Divide { op: 1, n: 9, d: 14, m: 0 }, Code::Pair(0xfb99, 0xfef0)),
    (Instr::SpecialRegister { op: 0, n: 10, d: 0, s: 20 }, Code::Pair(0xf38a, 0x8814)),
    (Instr::SpecialRegister { op: 0, n: 4, d: 0, s: 8 }, Code::Pair(0xf384, 0x8808)),
    (Instr::SpecialRegister { op: 1, n: 0, d: 7, s: 8 }, Code::Pair(0xf3ef, 0x8708)),
    (Instr::SpecialRegister { op: 1, n: 0, d: 4, s: 20 }, Code::Pair(0xf3ef, 0x8414)),
    (Instr::Barrier { op: 0 }, Code::Pair(0xf3bf, 0x8f4f)),
    (Instr::Barrier { op: 1 }, Code::Pair(0xf3bf, 0x8f6f)),
];

/// What no instruction is encoded to.
#[rattlefmt::skip]
const UNDEFINED: &[(u16, u16)] = &[
    (0xde00, 0),
    (0x4759, 0),
    (0x4709, 0),
    (0xc349, 0),
    (0xc197, 0),
    (0xc1df, 0),
    (0xc1e7, 0),
    (0xc19b, 0),
    (0xc14b, 0),
    (0xc285, 0),
    (0x46af, 0),
    (0xcf00, 0),
    (0xc27d, 0),
    (0xc641, 0),
    (0xc1cb, 0),
    (0xc143, 0),
    (0xc3a9, 0),
    (0x4497, 0),
    (0xc2c5, 0),
    (0xc471, 0),
    (0x4578, 0),
    (0x46bf, 0),
    (0xc3f9, 0),
    (0xc225, 0),
    (0x44cf, 0),
    (0x47f1, 0),
    (0x44b7, 0),
    (0x47a9, 0),
    (0xc900, 0),
    (0xf2c3, 0x4fb8),
    (0xfbb9, 0xfdf7),
    (0xfb9d, 0xf8f2),
    (0xf250, 0x00ff),
    (0xf38c, 0x8805),
    (0xebb6, 0xfef8),
    (0xf2c2, 0xa7f6),
    (0xfbb0, 0xfcff),
    (0xf800, 0xfff0),
    (0xf992, 0xfef8),
    (0xe800, 0x9000),
    (0xf3ef, 0xa214),
    (0xf243, 0x5f9b),
    (0xfb9f, 0xf9f8),
];

/// The halfwords of a code, 0 where it has no second, and how many bytes they are.
fn halfwords(code: Code) -> (u16, u16, u8) {
    match code {
        Code::Half(h) => (h, 0, 2),
        Code::Pair(h1, h2) => (h1, h2, 4),
    }
}

fn check_text(rt: &impl Abort, alloc: Global, h1: u16, h2: u16, text: &str) -> Result<(), Fail> {
    let (found, width) = decode(h1, h2).ok_or("not decoded")?;
    assert_eq!(rt; width, if h1 < 0xe800 { 2 } else { 4 });
    let code = if width == 2 {
        Code::Half(h1)
    } else {
        Code::Pair(h1, h2)
    };
    assert_eq!(rt; halfwords(encode(&found)), halfwords(code), "{text}");
    let shown = show(alloc, &found)?;
    assert_eq!(rt; shown.as_str(), text);
    Ok(())
}

#[test]
fn forms_are_decoded_and_shown(rt: HostRuntime) -> Result<(), Fail> {
    for (h1, h2, instr, text) in FORMS {
        let shown = show(rt.alloc(), instr)?;
        assert_eq!(rt; shown.as_str(), *text);
        check_text(&rt, rt.alloc(), *h1, *h2, text)?;
    }
    for (h1, h2, text) in TEXTS {
        check_text(&rt, rt.alloc(), *h1, *h2, text)?;
    }
    Ok(())
}

#[test]
fn operations_are_encoded(rt: HostRuntime) -> Result<(), Fail> {
    for (instr, code) in ENCODED {
        let (h1, h2, width) = halfwords(*code);
        let (found, length) = decode(h1, h2).ok_or("not decoded")?;
        assert_eq!(rt; halfwords(encode(&found)), (h1, h2, width));
        assert_eq!(rt; length, width);
        let (shown, wanted) = (show(rt.alloc(), &found)?, show(rt.alloc(), instr)?);
        assert_eq!(rt; shown.as_str(), wanted.as_str());
    }
    for (h1, h2) in UNDEFINED {
        assert!(rt; decode(*h1, *h2).is_none(), "{h1:x} {h2:x}");
    }
    Ok(())
}
