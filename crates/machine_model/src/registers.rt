//! The core registers by their numbers.

ghost use Rattle.std.specs.Prelude.{◌≡◌};
ghost use Rattle.machine_model.specs.State as state;

use crate::state::CoreRegisters;

impl CoreRegisters {
    /// Register r0 to r7; a register of another number reads 0.
    pub fn low_register(&self, number: u8) -> u32
        ensures { result ≡ state.low_register self.now number }
    {
        match self.low.get(usize::from(number)) {
            Some(value) => *value,
            None => 0,
        }
    }

    /// Writes one of r0 to r7; a write of another number does nothing.
    pub fn set_low_register(&mut self, number: u8, value: u32)
        ensures { self.new ≡ state.with_low self.old number value }
    {
        let number = usize::from(number);
        if number < self.low.len() {
            self.low[number] = value;
        }
    }

    /// Writes the stack pointer in use, whose low two bits are 0 (B1.4.1).
    pub fn set_stack_pointer(&mut self, value: u32)
        ensures { self.new ≡ state.with_sp self.old value }
    {
        self.sp = value / 4 * 4;
    }

    /// Register r0 to r15 (B1.4.7, R[]).
    pub fn register(&self, number: u8) -> u32
        ensures { result ≡ state.register self.now number }
    {
        match number {
            0..8 => self.low[usize::from(number)],
            8..13 => self.high[usize::from(number) - 8],
            13 => self.sp,
            14 => self.lr,
            _ => self.pc,
        }
    }

    /// Writes a register r0 to r14 (B1.4.7, R[]).
    pub fn set_register(&mut self, number: u8, value: u32)
        ensures { self.new ≡ state.with_register self.old number value }
    {
        match number {
            0..8 => self.low[usize::from(number)] = value,
            8..13 => self.high[usize::from(number) - 8] = value,
            13 => self.set_stack_pointer(value),
            _ => self.lr = value,
        }
    }

    /// Writes one of r0 to r7, before the next instruction.
    pub fn take(&mut self, number: u8, value: u32, next: u32)
        ensures { self.new ≡ state.low_at self.old next number value }
    {
        self.set_low_register(number, value);
        self.pc = next;
    }
}
