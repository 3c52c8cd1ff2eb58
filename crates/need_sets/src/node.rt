//! What holds values.

use ir_model::object::ObjId;

/// What holds values: a register, the contents of an object, what a function gives.
#[derive(Clone, Copy)]
pub enum Node {
    /// A register of a function, in any of its frames. Parameters come first.
    Reg {
        /// The function's number, over all files.
        func: u32,
        /// The register's number in its function.
        reg: u32,
    },
    /// All cells of an object.
    Content(ObjId),
    /// What a function gives, over all files.
    Result(u32),
}
