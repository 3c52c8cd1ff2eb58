//! Frames.

use crate::contents::{Contents, Values};

/// A function that runs or waits for one that it called.
pub struct Frame {
    /// Its number.
    pub func: u16,
    /// The block at which it stands.
    pub block: usize,
    /// The instruction of the block, or behind them its end.
    pub place: usize,
    /// The frame's number: how many were made before it.
    pub number: u64,
    /// What its registers hold.
    pub regs: Values,
    /// What its locals hold.
    pub locals: Contents,
}

impl Drop for Frame {
    fn drop(self) {
        let Frame {
            func: _,
            block: _,
            place: _,
            number: _,
            regs: _,
            locals: _,
        } = self;
    }
}
