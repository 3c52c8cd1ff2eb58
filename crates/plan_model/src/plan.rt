//! A board, and where the blocks of an image lie on it.

ghost use Rattle.std.specs.Prelude.{◌≡◌, ◌≤◌};
ghost use Rattle.plan_model.specs.Boards.{IsBoard, slots_of};

use crate::Denied;
use base_lists::ListVec;

/// A block of memory.
#[derive(Clone, Copy)]
pub struct Spot {
    /// The first address.
    pub base: u32,
    /// How many bytes.
    pub size: u32,
}

/// Which block of RAM stands at its base.
#[derive(Clone, Copy)]
pub enum Lowest {
    /// The largest, and the stack where none is larger.
    Largest,
    /// The stack, whatever its size.
    Stack,
}

/// The memories of a board, its protection unit, and what no compartment may reach.
pub struct Board {
    /// The first address of flash.
    pub flash_base: u32,
    /// How many bytes of flash.
    pub flash_size: u32,
    /// The first address of RAM.
    pub ram_base: u32,
    /// How many bytes of RAM.
    pub ram_size: u32,
    /// How many bytes of RAM are for the stack.
    pub stack: u32,
    /// Which block of RAM stands at its base.
    pub lowest: Lowest,
    /// The number of regions of the protection unit, 8 or 16.
    pub regions: u32,
    /// Whether loads are confined as stores are.
    pub closed: bool,
    /// The ranges of devices that no compartment may ever reach, in order of their names.
    pub denied: ListVec<Denied>,
}

impl Drop for Board {
    fn drop(self) {
        let Board {
            flash_base: _,
            flash_size: _,
            ram_base: _,
            ram_size: _,
            stack: _,
            lowest: _,
            regions: _,
            closed: _,
            denied: _,
        } = self;
    }
}

impl Board {
    /// How many slots its protection unit has: the regions beyond the first four.
    pub fn slots(&self) -> u32
        ensures slots { result ≡ slots_of self.now }
        ensures two { IsBoard self.now → 2 ≤ result }
        ensures few { IsBoard self.now → result ≤ 12 }
    {
        self.regions.saturating_sub(4)
    }
}

/// How much is to be placed in flash, in bytes.
pub struct Sizes {
    /// The code of each compartment.
    pub code: ListVec<u32>,
    /// The vectors, the monitor's code and its tables.
    pub tables: u32,
}

impl Drop for Sizes {
    fn drop(self) {
        let Sizes { code: _, tables: _ } = self;
    }
}

/// Where the blocks of an image lie.
pub struct Plan {
    /// The vectors, the monitor's code and its tables, in flash.
    pub tables: Spot,
    /// The code of each compartment, in flash.
    pub code: ListVec<Spot>,
    /// The stack, in RAM.
    pub stack: Spot,
    /// The monitor's block, in RAM.
    pub monitor: Spot,
    /// The data regions, in RAM.
    pub regions: ListVec<Spot>,
    /// The globals of no data region, in RAM, where there are any.
    pub unwritten: Option<Spot>,
}

impl Drop for Plan {
    fn drop(self) {
        let Plan {
            tables: _,
            code: _,
            stack: _,
            monitor: _,
            regions: _,
            unwritten: _,
        } = self;
    }
}
