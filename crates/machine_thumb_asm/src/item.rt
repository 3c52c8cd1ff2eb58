//! What is assembled.

use machine_thumb::Instr;

/// How a branch to a label is encoded.
#[derive(Clone, Copy)]
pub enum BranchKind {
    /// B T1, with a condition from 0 to 13: 254 bytes forward, 256 back.
    Cond(u8),
    /// B T2: 2,046 bytes forward, 2,048 back.
    Short,
    /// B T4: some 16 MiB either way.
    Long,
    /// BL T1: some 16 MiB either way.
    Link,
}

/// A place in code, to which branches go.
#[derive(Clone, Copy)]
pub struct Label {
    /// Its number, in the order in which labels were made.
    pub(crate) number: usize,
}

/// One piece of what is assembled.
#[derive(Clone, Copy)]
pub enum Item {
    /// An instruction.
    Plain(Instr),
    /// A branch to a label.
    Branch {
        /// How it is encoded.
        kind: BranchKind,
        /// The label.
        to: Label,
    },
    /// A halfword of data.
    Half(u16),
    /// A word of data.
    Word(u32),
}
