//! Objects of a firmware by their numbers.

ghost use Rattle.std.specs.Prelude.{◌≡◌};
ghost use Rattle.ir_model.specs.Objects.{compare_objects};

use std::cmp::Ordering;

/// An object of a firmware, by its number in order of declaration. Objects are in the order of these kinds, and those of
/// one kind in the order of their numbers.
#[derive(Clone, Copy, PartialEq, Eq, PartialOrd, Ord)]
pub enum ObjId {
    /// A global.
    Global(u32),
    /// A peripheral.
    Periph(u32),
    /// A local of a function.
    Local {
        /// The function's number, over all files.
        func: u32,
        /// The local's number in its function.
        local: u32,
    },
    /// A function, over all files.
    Func(u32),
}

impl ObjId {
    /// How an object stands to another in their order: by kind, and then by number.
    pub fn order(&self, other: &ObjId) -> Ordering
        ensures { result ≡ compare_objects self.now other.now }
    {
        self.cmp(other)
    }
}
