//! Code with labels, and its bytes.
#![tactic(auto)]

mod assembler;
mod encoding;
pub mod item;
pub mod laws;
pub mod refusal;

pub use assembler::Asm;
pub use item::{BranchKind, Label};
pub use refusal::AsmRefusal;
