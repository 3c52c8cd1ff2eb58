//! What the code of a function needs from outside.

use base_lists::ListVec;

/// A call of a function that may go to another compartment.
#[derive(Clone, Copy)]
pub struct CallSite {
    /// The number of its block in the function.
    pub block: u32,
    /// Its place in the block.
    pub place: u32,
    /// The number of the site in the image's tables.
    pub number: u32,
}

/// The addresses of all globals, windows and functions of a firmware. They are absolute and in bytes.
pub struct Addresses {
    /// The first address of each global.
    pub globals: ListVec<u32>,
    /// The first address of each peripheral's window.
    pub windows: ListVec<u32>,
    /// The entry of each function: the address of its first instruction.
    pub entries: ListVec<u32>,
}

impl Drop for Addresses {
    fn drop(self) {
        let Addresses {
            globals: _,
            windows: _,
            entries: _,
        } = self;
    }
}

/// What the code of one function needs from outside. Addresses are absolute and in bytes.
pub struct Places {
    /// The first address of each global.
    pub globals: ListVec<u32>,
    /// The first address of each peripheral's window.
    pub windows: ListVec<u32>,
    /// The entry of each function of the firmware: the address of its first instruction.
    pub entries: ListVec<u32>,
    /// The function's calls that may go to another compartment.
    pub sites: ListVec<CallSite>,
    /// The number by which each local of the function is lent to other compartments, if it is.
    pub lends: ListVec<Option<u32>>,
}

impl Drop for Places {
    fn drop(self) {
        let Places {
            globals: _,
            windows: _,
            entries: _,
            sites: _,
            lends: _,
        } = self;
    }
}
