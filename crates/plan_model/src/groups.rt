//! What a policy knows of a function, and the compartments that it makes.

use base_lists::ListVec;
use base_names::Name;

/// What a policy knows of a function.
pub struct FuncFacts {
    /// Its number.
    pub index: u32,
    /// Its name.
    pub name: Name,
    /// The number of its file.
    pub file: u32,
    /// The peripherals that it may use, in rising order.
    pub periphs: ListVec<u32>,
    /// The other functions that may call it, in rising order.
    pub callers: ListVec<u32>,
}

impl Drop for FuncFacts {
    fn drop(self) {
        let FuncFacts {
            index: _,
            name: _,
            file: _,
            periphs: _,
            callers: _,
        } = self;
    }
}

/// The compartments of a firmware.
#[derive(Drop)]
pub struct Groups {
    /// The compartment of each function.
    pub of: ListVec<u32>,
    /// How many compartments there are.
    pub count: u32,
}
