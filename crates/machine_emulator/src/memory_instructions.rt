//! Instructions that load, store, call or end (Armv7-M ARM, A7.7).

ghost use Rattle.std.specs.Prelude.{◌≡◌, ◌+◌, ◌<◌, ◌%◌, ◌^◌};
ghost use Rattle.machine_thumb.specs.Table.{InTable};
ghost use Rattle.machine_model.specs.Instructions.{act};
ghost use Rattle.machine_emulator.specs.Parts.{left, does};

use crate::parts::Parts;
use base_events::event::Event;
use base_words::operations::{add, moved_address};
use machine_thumb::table::Instr;

impl Parts {
    /// LDR (literal).
    #[tactic(auto, unfolding(machine_model::specs::Instructions::act))]
    pub fn load_literal(&mut self, t: u8, imm8: u8, next: u32) -> Option<Event>
        requires aligned { self.old.core.sp % 4 ≡ 0 }
        requires near { next + 4 < 2 ^ 32 }
        ensures { left self.new result
            ≡ does (act (Instr.LoadLiteral t imm8) next self.old.core) self.old }
    {
        let base = (next + 2) / 4 * 4;
        let address = base.wrapping_add(4 * u32::from(imm8));
        self.load(t, false, 4, address, next)
    }

    /// Loads and stores by the sum of two registers: STR STRH STRB LDRSB LDR LDRH LDRB LDRSH.
    #[tactic(auto, unfolding(machine_model::specs::Instructions::act))]
    pub fn transfer_register(&mut self, op: u8, m: u8, n: u8, t: u8, next: u32) -> Option<Event>
        requires { self.old.core.sp % 4 ≡ 0 }
        ensures { left self.new result
            ≡ does (act (Instr.TransferRegister op m n t) next self.old.core) self.old }
    {
        let address = add(self.core.low_register(n), self.core.low_register(m));
        match op {
            0 => self.store(t, 4, address, next),
            1 => self.store(t, 2, address, next),
            2 => self.store(t, 1, address, next),
            3 => self.load(t, true, 1, address, next),
            4 => self.load(t, false, 4, address, next),
            5 => self.load(t, false, 2, address, next),
            6 => self.load(t, false, 1, address, next),
            _ => self.load(t, true, 2, address, next),
        }
    }

    /// Loads and stores by a register and a number, which counts widths: STR LDR STRB LDRB STRH LDRH.
    #[tactic(auto, unfolding(machine_model::specs::Instructions::act))]
    pub fn transfer_immediate(&mut self, op: u8, imm5: u8, n: u8, t: u8, next: u32) -> Option<Event>
        requires { self.old.core.sp % 4 ≡ 0 }
        ensures { left self.new result
            ≡ does (act (Instr.TransferImmediate op imm5 n t) next self.old.core) self.old }
    {
        let base = self.core.low_register(n);
        let number = u32::from(imm5);
        match op {
            0 => self.store(t, 4, base.wrapping_add(4 * number), next),
            1 => self.load(t, false, 4, base.wrapping_add(4 * number), next),
            2 => self.store(t, 1, base.wrapping_add(number), next),
            3 => self.load(t, false, 1, base.wrapping_add(number), next),
            4 => self.store(t, 2, base.wrapping_add(2 * number), next),
            _ => self.load(t, false, 2, base.wrapping_add(2 * number), next),
        }
    }

    /// STR and LDR from the stack pointer, and its sum with a number, which counts words.
    #[tactic(auto, unfolding(machine_model::specs::Instructions::act, machine_model::specs::Perform::perform))]
    pub fn stack_relative(&mut self, op: u8, t: u8, d: u8, imm8: u8, next: u32) -> Option<Event>
        requires { self.old.core.sp % 4 ≡ 0 }
        ensures { left self.new result
            ≡ does (act (Instr.StackRelative op t d imm8) next self.old.core) self.old }
    {
        let address = self.core.sp.wrapping_add(4 * u32::from(imm8));
        match op {
            0 => self.store(t, 4, address, next),
            1 => self.load(t, false, 4, address, next),
            _ => {
                self.core.take(d, address, next);
                None
            }
        }
    }

    /// PUSH and POP.
    #[tactic(auto, unfolding(machine_model::specs::Instructions::act))]
    pub fn push_pop(&mut self, op: u8, m: u8, p: u8, list: u8, next: u32) -> Option<Event>
        requires aligned { self.old.core.sp % 4 ≡ 0 }
        requires bit { p < 2 }
        ensures { left self.new result
            ≡ does (act (Instr.PushPop op m p list) next self.old.core) self.old }
    {
        if op == 0 {
            self.push(m, list, next)
        } else {
            self.pop(p, list, next)
        }
    }

    /// STMIA and LDMIA.
    #[tactic(auto, unfolding(machine_model::specs::Instructions::act))]
    pub fn transfer_multiple(&mut self, op: u8, n: u8, list: u8, next: u32) -> Option<Event>
        requires { self.old.core.sp % 4 ≡ 0 }
        ensures { left self.new result
            ≡ does (act (Instr.TransferMultiple op n list) next self.old.core) self.old }
    {
        if op == 0 {
            self.store_multiple(n, list, next)
        } else {
            self.load_multiple(n, list, next)
        }
    }

    /// BX and BLX.
    #[tactic(auto, unfolding(machine_model::specs::Instructions::act))]
    pub fn branch_exchange(&mut self, op: u8, m: u8, next: u32) -> Option<Event>
        requires sp { self.old.core.sp % 4 ≡ 0 }
        requires other_sp { self.old.core.other_sp % 4 ≡ 0 }
        requires near { next + 4 < 2 ^ 32 }
        ensures { left self.new result
            ≡ does (act (Instr.BranchExchange op m) next self.old.core) self.old }
    {
        let target = self.core.register(m);
        if op == 0 {
            self.exchange(target)
        } else {
            self.call_register(target, next + 1)
        }
    }

    /// BKPT and NOP.
    #[tactic(auto, unfolding(machine_model::specs::Instructions::act))]
    pub fn breakpoint_nop(&mut self, op: u8, imm8: u8, next: u32) -> Option<Event>
        ensures { left self.new result
            ≡ does (act (Instr.BreakpointNop op imm8) next self.old.core) self.old }
    {
        if op == 0 {
            self.halt(imm8)
        } else {
            self.go_on(next)
        }
    }

    /// SVC and B.
    #[tactic(auto, unfolding(machine_model::specs::Instructions::act))]
    pub fn call_branch(&mut self, op: u8, imm8: u8, offset: i32, next: u32) -> Option<Event>
        requires aligned { self.old.core.sp % 4 ≡ 0 }
        requires near { next + 4 < 2 ^ 32 }
        ensures { left self.new result
            ≡ does (act (Instr.CallBranch op imm8 offset) next self.old.core) self.old }
    {
        if op == 0 {
            self.call(next)
        } else {
            self.go_on(moved_address(next + 2, offset))
        }
    }

    /// MSR and MRS.
    #[tactic(auto, unfolding(machine_model::specs::Instructions::act))]
    pub fn special_register(&mut self, op: u8, n: u8, d: u8, s: u8, next: u32) -> Option<Event>
        ensures { left self.new result
            ≡ does (act (Instr.SpecialRegister op n d s) next self.old.core) self.old }
    {
        if op == 0 {
            let value = self.core.register(n);
            self.set_special(s, value, next)
        } else {
            self.get_special(s, d, next)
        }
    }

    /// The instruction, with the address behind it.
    #[tactic(auto, unfolding(machine_model::specs::Instructions::act))]
    pub fn execute(&mut self, instr: Instr, next: u32) -> Option<Event>
        requires table { InTable instr }
        requires sp { self.old.core.sp % 4 ≡ 0 }
        requires other_sp { self.old.core.other_sp % 4 ≡ 0 }
        requires near { next + 4 < 2 ^ 32 }
        ensures { left self.new result ≡ does (act instr next self.old.core) self.old }
    {
        match instr {
            Instr::ShiftImmediate { op, imm5, m, d } => self.shift_immediate(op, imm5, m, d, next),
            Instr::AddSubRegister { op, m, n, d } => self.add_sub_register(op, m, n, d, next),
            Instr::AddSubImmediate { op, imm3, n, d } => self.add_sub_immediate(
                op, imm3, n, d, next,
            ),
            Instr::DataImmediate { op, d, imm8 } => self.data_immediate(op, d, imm8, next),
            Instr::DataRegister { op, m, d } => self.data_register(op, m, d, next),
            Instr::HighRegister { op, m, d } => self.high_register(op, m, d, next),
            Instr::BranchExchange { op, m } => self.branch_exchange(op, m, next),
            Instr::LoadLiteral { t, imm8 } => self.load_literal(t, imm8, next),
            Instr::TransferRegister { op, m, n, t } => self.transfer_register(op, m, n, t, next),
            Instr::TransferImmediate { op, imm5, n, t } => self.transfer_immediate(
                op, imm5, n, t, next,
            ),
            Instr::StackRelative { op, t, d, imm8 } => self.stack_relative(op, t, d, imm8, next),
            Instr::AdjustStack { op, imm7 } => self.adjust_stack(op, imm7, next),
            Instr::PushPop { op, m, p, list } => self.push_pop(op, m, p, list, next),
            Instr::BreakpointNop { op, imm8 } => self.breakpoint_nop(op, imm8, next),
            Instr::TransferMultiple { op, n, list } => self.transfer_multiple(op, n, list, next),
            Instr::BranchConditional { cond, offset } => self.branch_conditional(
                cond, offset, next,
            ),
            Instr::CallBranch { op, imm8, offset } => self.call_branch(op, imm8, offset, next),
            Instr::BranchLink { offset } => self.branch_link(offset, next),
            Instr::BranchWide { offset } => self.branch_wide(offset, next),
            Instr::MoveWide { d, value } => self.move_wide(d, value, next),
            Instr::MoveTop { d, value } => self.move_top(d, value, next),
            Instr::Divide { op, n, d, m } => self.divide(op, n, d, m, next),
            Instr::SpecialRegister { op, n, d, s } => self.special_register(op, n, d, s, next),
            Instr::Barrier { op: _ } => self.go_on(next),
        }
    }
}
