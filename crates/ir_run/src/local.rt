//! Locals of frames.

/// A local of one frame of a function.
#[derive(Clone, Copy)]
pub struct Local {
    /// The function's number.
    pub func: u16,
    /// The frame's number.
    pub frame: u64,
    /// The local's number.
    pub local: u8,
}
