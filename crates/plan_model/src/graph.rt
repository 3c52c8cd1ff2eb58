//! The graph of compartments and regions: who writes and reads which globals, and which peripherals each compartment has.

ghost use Rattle.std.specs.Prelude.{◌≡◌};

use crate::groups::Groups;
use base_lists::ListVec;

/// Globals that lie together in one block, because the same compartments reach them. Each list is in rising order.
pub struct DataRegion {
    /// The numbers of the globals.
    pub globals: ListVec<u32>,
    /// The compartments that may write them.
    pub writers: ListVec<u32>,
    /// The compartments that may read them on a closed board; on an open board there are none.
    pub readers: ListVec<u32>,
}

impl Drop for DataRegion {
    fn drop(self) {
        let DataRegion {
            globals: _,
            writers: _,
            readers: _,
        } = self;
    }
}

/// A range of addresses that holds windows of peripherals: a power of two of bytes, from a multiple of that on.
#[derive(Clone, Copy)]
pub struct Cover {
    /// The first address.
    pub base: u32,
    /// How many bytes.
    pub size: u32,
}

/// Which compartment reaches what.
pub struct Graph {
    /// The compartments.
    pub groups: Groups,
    /// The data regions.
    pub regions: ListVec<DataRegion>,
    /// The globals of no data region, in rising order.
    pub unwritten: ListVec<u32>,
    /// The covers of each compartment, in order of their bases.
    pub covers: ListVec<ListVec<Cover>>,
    /// The mask of each compartment: bit i is set where it may write lendable local i.
    pub masks: ListVec<u32>,
    /// The read mask of each compartment: bit i is set where it may read lendable local i. 0 on an open board.
    pub reads: ListVec<u32>,
}

impl Drop for Graph {
    fn drop(self) {
        let Graph {
            groups: _,
            regions: _,
            unwritten: _,
            covers: _,
            masks: _,
            reads: _,
        } = self;
    }
}

impl Graph {
    /// The graph as the last one of all joins.
    pub fn into_final(self) -> Final
        ensures { result ≡ record { groups = self.groups; regions = self.regions; unwritten = self.unwritten; covers = self.covers; masks = self.masks; reads = self.reads } }
    {
        let Graph {
            groups,
            regions,
            unwritten,
            covers,
            masks,
            reads,
        } = self;
        Final {
            groups,
            regions,
            unwritten,
            covers,
            masks,
            reads,
        }
    }
}

/// A graph in which no compartment has more data regions and covers than the protection unit has slots.
pub struct Final {
    /// The compartments.
    pub groups: Groups,
    /// The data regions.
    pub regions: ListVec<DataRegion>,
    /// The globals of no data region, in rising order.
    pub unwritten: ListVec<u32>,
    /// The covers of each compartment, in order of their bases.
    pub covers: ListVec<ListVec<Cover>>,
    /// The mask of each compartment: bit i is set where it may write lendable local i.
    pub masks: ListVec<u32>,
    /// The read mask of each compartment: bit i is set where it may read lendable local i. 0 on an open board.
    pub reads: ListVec<u32>,
}

impl Drop for Final {
    fn drop(self) {
        let Final {
            groups: _,
            regions: _,
            unwritten: _,
            covers: _,
            masks: _,
            reads: _,
        } = self;
    }
}
