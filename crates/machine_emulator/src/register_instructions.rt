//! Instructions that change registers alone: they compute (Armv7-M ARM, A7.7), move or branch.

ghost use Rattle.std.specs.Prelude.{◌≡◌, ◌+◌, ◌<◌, ◌^◌};
ghost use Rattle.machine_model.specs.Instructions.{act};
ghost use Rattle.machine_model.specs.Act.{Changes};
ghost use Rattle.machine_emulator.specs.Parts.{left, does};
ghost use Rattle.machine_model.specs.State.{at};

use crate::data::{
    add_or_subtract, immediate, immediate_amount, operation, shift_by, take_outcome,
};
use crate::parts::Parts;
use base_events::event::Event;
use base_words::conditions::{compare_flags, holds};
use base_words::operations::{add, moved_address, signed_quotient, unsigned_quotient};
use machine_thumb::table::Instr;

impl Parts {
    /// LSLS, LSRS and ASRS by a number.
    #[tactic(auto, unfolding(machine_model::specs::Instructions::act, machine_model::specs::Perform::perform))]
    pub fn shift_immediate(&mut self, op: u8, imm5: u8, m: u8, d: u8, next: u32) -> Option<Event>
        ensures { left self.new result
            ≡ does (act (Instr.ShiftImmediate op imm5 m d) next self.old.core) self.old }
    {
        let amount = immediate_amount(op, imm5);
        let outcome = shift_by(op, self.core.low_register(m), amount, self.core.flags);
        take_outcome(outcome, &mut self.core, next, d);
        None
    }

    /// ADDS and SUBS of registers.
    #[tactic(auto, unfolding(machine_model::specs::Instructions::act, machine_model::specs::Perform::perform))]
    pub fn add_sub_register(&mut self, op: u8, m: u8, n: u8, d: u8, next: u32) -> Option<Event>
        ensures { left self.new result
            ≡ does (act (Instr.AddSubRegister op m n d) next self.old.core) self.old }
    {
        let outcome = add_or_subtract(op, self.core.low_register(n), self.core.low_register(m));
        take_outcome(outcome, &mut self.core, next, d);
        None
    }

    /// ADDS and SUBS of a register and a number.
    #[tactic(auto, unfolding(machine_model::specs::Instructions::act, machine_model::specs::Perform::perform))]
    pub fn add_sub_immediate(&mut self, op: u8, imm3: u8, n: u8, d: u8, next: u32) -> Option<Event>
        ensures { left self.new result
            ≡ does (act (Instr.AddSubImmediate op imm3 n d) next self.old.core) self.old }
    {
        let outcome = add_or_subtract(op, self.core.low_register(n), u32::from(imm3));
        take_outcome(outcome, &mut self.core, next, d);
        None
    }

    /// MOVS, CMP, ADDS and SUBS with a number.
    #[tactic(auto, unfolding(machine_model::specs::Instructions::act, machine_model::specs::Perform::perform))]
    pub fn data_immediate(&mut self, op: u8, d: u8, imm8: u8, next: u32) -> Option<Event>
        ensures { left self.new result
            ≡ does (act (Instr.DataImmediate op d imm8) next self.old.core) self.old }
    {
        let outcome = immediate(
            op,
            self.core.low_register(d),
            u32::from(imm8),
            self.core.flags,
        );
        take_outcome(outcome, &mut self.core, next, d);
        None
    }

    /// The operations on two registers.
    #[tactic(auto, unfolding(machine_model::specs::Instructions::act, machine_model::specs::Perform::perform))]
    pub fn data_register(&mut self, op: u8, m: u8, d: u8, next: u32) -> Option<Event>
        ensures { left self.new result
            ≡ does (act (Instr.DataRegister op m d) next self.old.core) self.old }
    {
        let outcome = operation(
            op,
            self.core.low_register(d),
            self.core.low_register(m),
            self.core.flags,
        );
        take_outcome(outcome, &mut self.core, next, d);
        None
    }

    /// ADD, CMP and MOV with any registers; only CMP sets flags.
    #[tactic(auto, unfolding(machine_model::specs::Instructions::act, machine_model::specs::Perform::perform))]
    pub fn high_register(&mut self, op: u8, m: u8, d: u8, next: u32) -> Option<Event>
        ensures { left self.new result
            ≡ does (act (Instr.HighRegister op m d) next self.old.core) self.old }
    {
        let (x, y) = (self.core.register(d), self.core.register(m));
        match op {
            0 => self.core.set_register(d, add(x, y)),
            1 => self.core.flags = compare_flags(x, y),
            _ => self.core.set_register(d, y),
        }
        self.core.pc = next;
        None
    }

    /// ADD and SUB of the stack pointer and a number of words.
    #[tactic(auto, unfolding(machine_model::specs::Instructions::act, machine_model::specs::Perform::perform))]
    pub fn adjust_stack(&mut self, op: u8, imm7: u8, next: u32) -> Option<Event>
        ensures { left self.new result
            ≡ does (act (Instr.AdjustStack op imm7) next self.old.core) self.old }
    {
        let distance = 4 * u32::from(imm7);
        self.core.sp = if op == 0 {
            self.core.sp.wrapping_add(distance)
        } else {
            self.core.sp.wrapping_sub(distance)
        };
        self.core.pc = next;
        None
    }

    /// B with a condition.
    #[tactic(auto, unfolding(machine_model::specs::Instructions::act, machine_model::specs::Perform::perform))]
    pub fn branch_conditional(&mut self, cond: u8, offset: i32, next: u32) -> Option<Event>
        requires { next + 4 < 2 ^ 32 }
        ensures { left self.new result
            ≡ does (act (Instr.BranchConditional cond offset) next self.old.core) self.old }
    {
        self.core.pc = if holds(u32::from(cond), self.core.flags) {
            moved_address(next + 2, offset)
        } else {
            next
        };
        None
    }

    /// BL.
    #[tactic(auto, unfolding(machine_model::specs::Instructions::act, machine_model::specs::Perform::perform))]
    pub fn branch_link(&mut self, offset: i32, next: u32) -> Option<Event>
        requires { next + 4 < 2 ^ 32 }
        ensures { left self.new result
            ≡ does (act (Instr.BranchLink offset) next self.old.core) self.old }
    {
        self.core.lr = next + 1;
        self.core.pc = moved_address(next, offset);
        None
    }

    /// B of two halfwords.
    #[tactic(auto, unfolding(machine_model::specs::Instructions::act, machine_model::specs::Perform::perform))]
    pub fn branch_wide(&mut self, offset: i32, next: u32) -> Option<Event>
        ensures { left self.new result
            ≡ does (act (Instr.BranchWide offset) next self.old.core) self.old }
    {
        self.core.pc = moved_address(next, offset);
        None
    }

    /// MOVW.
    #[tactic(auto, unfolding(machine_model::specs::Instructions::act, machine_model::specs::Perform::perform))]
    pub fn move_wide(&mut self, d: u8, value: u16, next: u32) -> Option<Event>
        ensures { left self.new result
            ≡ does (act (Instr.MoveWide d value) next self.old.core) self.old }
    {
        self.core.set_register(d, u32::from(value));
        self.core.pc = next;
        None
    }

    /// MOVT.
    #[tactic(auto, unfolding(machine_model::specs::Instructions::act, machine_model::specs::Perform::perform))]
    pub fn move_top(&mut self, d: u8, value: u16, next: u32) -> Option<Event>
        ensures { left self.new result
            ≡ does (act (Instr.MoveTop d value) next self.old.core) self.old }
    {
        self.core.set_register(
            d,
            self.core.register(d) % 0x1_0000 + (u32::from(value) << 16),
        );
        self.core.pc = next;
        None
    }

    /// UDIV and SDIV.
    #[tactic(auto, unfolding(machine_model::specs::Instructions::act, machine_model::specs::Perform::perform))]
    pub fn divide(&mut self, op: u8, n: u8, d: u8, m: u8, next: u32) -> Option<Event>
        ensures { left self.new result
            ≡ does (act (Instr.Divide op n d m) next self.old.core) self.old }
    {
        let (x, y) = (self.core.register(n), self.core.register(m));
        let quotient = if op == 0 {
            unsigned_quotient(x, y)
        } else {
            signed_quotient(x, y)
        };
        self.core.set_register(d, quotient);
        self.core.pc = next;
        None
    }

    /// NOP, DSB and ISB.
    #[tactic(auto, unfolding(machine_model::specs::Perform::perform))]
    pub fn go_on(&mut self, next: u32) -> Option<Event>
        ensures { left self.new result ≡ does (Changes (at self.old.core next)) self.old }
    {
        self.core.pc = next;
        None
    }
}
