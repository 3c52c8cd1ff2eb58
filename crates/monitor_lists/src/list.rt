//! Lists of steps in the making, and the words of which they are made.

ghost use Rattle.std.specs.Prelude.{◌≡◌, ◌<◌, [], ◌∷◌, ◌++◌, OnOk};
ghost use Rattle.base_words.specs.declared.memory.Width.TheVariants.{Word};
ghost use Rattle.monitor_steps.specs.Steps as steps;
ghost use Rattle.monitor_steps.specs.Lists.{steps_of};
ghost use Rattle.monitor_program.specs.Opening as opening;
ghost use Rattle.monitor_lists.specs.Made.{Appends};

use base_words::memory::Width;
use monitor_steps::{PrivilegedCond, PrivilegedOp, PrivilegedStep};
use std::alloc::{AllocError, Global};

/// Steps, one behind the other.
#[derive(Drop)]
pub struct StepList {
    alloc: Global,
    /// The steps.
    pub steps: Vec<PrivilegedStep>,
}

impl StepList {
    /// No step yet.
    pub fn new(alloc: Global) -> Self
        ensures { result.steps.items ≡ [] }
    {
        StepList {
            alloc,
            steps: Vec::new(alloc),
        }
    }

    /// What lists within this one take memory from.
    pub fn allocator(&self) -> Global {
        self.alloc
    }

    /// A list of the same allocator, without a step.
    pub fn other(&self) -> Self
        ensures { result.steps.items ≡ [] }
    {
        StepList::new(self.alloc)
    }

    /// The steps. Takes no memory.
    pub fn into_vec(self) -> Vec<PrivilegedStep>
        ensures { result.items ≡ self.steps.items }
    {
        let StepList { steps, .. } = self;
        steps
    }

    fn put(&mut self, step: PrivilegedStep) -> Result<(), AllocError>
        ensures { OnOk result (self.new.steps.items ≡ self.old.steps.items ++ step ∷ []) }
    {
        self.steps.push(step)?;
        Ok(())
    }

    /// A number into a register.
    pub fn constant(&mut self, to: u8, value: u32) -> Result<(), AllocError>
        ensures { OnOk result (Appends self.old self.new (steps.Const to value)) }
    {
        self.put(PrivilegedStep::Const { to, value })
    }

    /// Another register's value into a register.
    pub fn copy(&mut self, to: u8, from: u8) -> Result<(), AllocError>
        ensures { OnOk result (Appends self.old self.new (steps.Copy to from)) }
    {
        self.put(PrivilegedStep::Copy { to, from })
    }

    /// The value at the address in a register, with zeros before it.
    pub fn load(&mut self, width: Width, to: u8, base: u8) -> Result<(), AllocError>
        ensures { OnOk result (Appends self.old self.new (steps.Load width to base 0)) }
    {
        self.put(PrivilegedStep::Load {
            to,
            base,
            offset: 0,
            width,
        })
    }

    /// The low bytes of a register to the address in another.
    pub fn store(&mut self, width: Width, from: u8, base: u8) -> Result<(), AllocError>
        ensures { OnOk result (Appends self.old self.new (steps.Store width from base 0)) }
    {
        self.put(PrivilegedStep::Store {
            from,
            base,
            offset: 0,
            width,
        })
    }

    /// A word so many words behind the address in a register.
    pub fn load_word(&mut self, to: u8, base: u8, words: u8) -> Result<(), AllocError>
        requires { words < 32 }
        ensures { OnOk result (Appends self.old self.new (steps.Load Word to base words)) }
    {
        self.put(PrivilegedStep::Load {
            to,
            base,
            offset: 4 * words,
            width: Width::Word,
        })
    }

    /// A register to the word so many words behind the address in another.
    pub fn store_word(&mut self, from: u8, base: u8, words: u8) -> Result<(), AllocError>
        requires { words < 32 }
        ensures { OnOk result (Appends self.old self.new (steps.Store Word from base words)) }
    {
        self.put(PrivilegedStep::Store {
            from,
            base,
            offset: 4 * words,
            width: Width::Word,
        })
    }

    /// What an operation on two registers gives.
    pub fn alu(&mut self, op: PrivilegedOp, to: u8, a: u8, b: u8) -> Result<(), AllocError>
        ensures { OnOk result (Appends self.old self.new (steps.Alu op to a b)) }
    {
        self.put(PrivilegedStep::Alu { op, to, a, b })
    }

    /// The process stack pointer into a register.
    pub fn read_psp(&mut self, to: u8) -> Result<(), AllocError>
        ensures { OnOk result (Appends self.old self.new (steps.ReadPsp to)) }
    {
        self.put(PrivilegedStep::ReadPsp { to })
    }

    /// A register's value into the process stack pointer.
    pub fn write_psp(&mut self, from: u8) -> Result<(), AllocError>
        ensures { OnOk result (Appends self.old self.new (steps.WritePsp from)) }
    {
        self.put(PrivilegedStep::WritePsp { from })
    }

    /// A register's value into CONTROL.
    pub fn write_control(&mut self, from: u8) -> Result<(), AllocError>
        ensures { OnOk result (Appends self.old self.new (steps.WriteControl from)) }
    {
        self.put(PrivilegedStep::WriteControl { from })
    }

    /// One of two lists, by a comparison of two registers.
    pub fn test(
        &mut self,
        cond: PrivilegedCond,
        a: u8,
        b: u8,
        yes: StepList,
        no: StepList,
    ) -> Result<(), AllocError>
        ensures { OnOk result (Appends self.old self.new (steps.Test cond a b (steps_of yes.steps.items) (steps_of no.steps.items))) }
    {
        let yes = yes.into_vec();
        let no = no.into_vec();
        self.put(PrivilegedStep::Test {
            cond,
            a,
            b,
            yes,
            no,
        })
    }

    /// A list while a register isn't 0, at most so many times.
    pub fn repeat(&mut self, left: u8, most: u32, body: StepList) -> Result<(), AllocError>
        ensures { OnOk result (Appends self.old self.new (steps.Repeat left most (steps_of body.steps.items))) }
    {
        let body = body.into_vec();
        self.put(PrivilegedStep::Repeat { left, most, body })
    }

    /// The end of the machine, with a number.
    pub fn halt(&mut self, code: u8) -> Result<(), AllocError>
        ensures { OnOk result (Appends self.old self.new (steps.Halt code)) }
    {
        self.put(PrivilegedStep::Halt { code })
    }

    /// The exception return.
    pub fn exception_return(&mut self) -> Result<(), AllocError>
        ensures { OnOk result (Appends self.old self.new steps.Return) }
    {
        self.put(PrivilegedStep::Return)
    }

    /// A branch to the address in a register, the link register taken from another.
    pub fn go(&mut self, to: u8, link: u8) -> Result<(), AllocError>
        ensures { OnOk result (Appends self.old self.new (steps.Go to link)) }
    {
        self.put(PrivilegedStep::Go { to, link })
    }

    /// A comparison that has to hold; else the machine halts with a number.
    pub fn must(&mut self, cond: PrivilegedCond, a: u8, b: u8, code: u8) -> Result<(), AllocError>
        ensures { OnOk result (Appends self.old self.new (opening.must cond a b code)) }
    {
        let mut halt = self.other();
        halt.halt(code)?;
        self.test(cond, a, b, self.other(), halt)
    }

    /// A comparison that must not hold; else the machine halts with a number.
    pub fn must_not(
        &mut self,
        cond: PrivilegedCond,
        a: u8,
        b: u8,
        code: u8,
    ) -> Result<(), AllocError>
        ensures { OnOk result (Appends self.old self.new (opening.must_not cond a b code)) }
    {
        let mut halt = self.other();
        halt.halt(code)?;
        self.test(cond, a, b, halt, self.other())
    }
}
