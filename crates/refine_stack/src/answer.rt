//! The answer that a bound on the stack is.

use base_lists::ListVec;

/// A bound on the stack of a firmware in its compartments, or why there is none. Functions are given by their numbers.
#[derive(Drop)]
pub enum StackAnswer {
    /// Functions that call each other in turn, the same at both ends.
    Cycle(ListVec<u32>),
    /// How many bytes of the stack are needed, and the call path that needs them, `main` first.
    Bound {
        /// The bytes, with the room for an exception.
        needed: u64,
        /// The functions of the path.
        path: ListVec<u32>,
    },
}
