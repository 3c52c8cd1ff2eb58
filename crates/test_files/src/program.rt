//! What the cases call.

use base_outside::{MemFiles, MemSink};
use std::alloc::Global;

/// A program that is called on words, over files and sinks in memory.
pub trait Program {
    /// Carries out what the words ask for, and answers the exit status.
    fn call(
        &self,
        alloc: Global,
        words: &[String],
        files: &mut MemFiles,
        out: &mut MemSink,
        err: &mut MemSink,
    ) -> u8;
}
