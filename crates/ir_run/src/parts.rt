//! The state of a run.

use crate::below::Below;
use crate::contents::Contents;
use crate::frame::Frame;
use machine_devices::tape::Tape;

/// The state of a run that has not ended.
pub struct Parts {
    /// The running frame.
    pub top: Frame,
    /// The frames that wait.
    pub below: Below,
    /// What the globals hold.
    pub globals: Contents,
    /// The words that each peripheral has left.
    pub tape: Tape,
    /// The number of the frame that was made last.
    pub newest: u64,
}

impl Drop for Parts {
    fn drop(self) {
        let Parts {
            top: _,
            below: _,
            globals: _,
            tape: _,
            newest: _,
        } = self;
    }
}
