//! The tables by which the monitor decides, as they stand in flash behind its code.

use base_lists::ListVec;
use machine_protection::region::Region;
use plan_model::Spot;

/// What a compartment may reach.
pub struct CompRecord {
    /// Region 2: the compartment's code.
    pub code: Region,
    /// The regions from number 4 on, free ones too; all compartments have the same number of them.
    pub slots: ListVec<Region>,
    /// Bit n is set where the compartment may write lendable local n.
    pub mask: u32,
    /// Bit n is set where the compartment may read lendable local n. 0 on an open board.
    pub reads: u32,
}

impl Drop for CompRecord {
    fn drop(self) {
        let CompRecord {
            code: _,
            slots: _,
            mask: _,
            reads: _,
        } = self;
    }
}

/// A place of a call that may go to another compartment.
#[derive(Clone, Copy)]
pub struct SiteRecord {
    /// The return address of the site's SVC.
    pub ret: u32,
    /// The number of its first target.
    pub first: u32,
    /// How many targets it has.
    pub count: u32,
}

/// A function that a site may call.
#[derive(Clone, Copy)]
pub struct TargetRecord {
    /// Its entry, with bit 0 set.
    pub entry: u32,
    /// Its compartment.
    pub compartment: u32,
}

/// Words that start-up copies into RAM.
#[derive(Clone, Copy)]
pub struct InitRecord {
    /// The first address in RAM.
    pub at: u32,
    /// The address behind the last word in RAM.
    pub end: u32,
    /// The address of the words in flash.
    pub from: u32,
}

/// The tables. Addresses are absolute.
pub struct Tables {
    /// The first address of the tables' block, which begins with the vectors and the monitor's code.
    pub base: u32,
    /// A record for each compartment.
    pub comps: ListVec<CompRecord>,
    /// A record for each crossing site.
    pub sites: ListVec<SiteRecord>,
    /// The targets of all sites, one site's behind the other's.
    pub targets: ListVec<TargetRecord>,
    /// The size in bytes of each lendable local.
    pub lends: ListVec<u32>,
    /// The ranges that start-up fills.
    pub inits: ListVec<InitRecord>,
    /// The initial words of all ranges, one range's behind the other's.
    pub words: ListVec<u32>,
    /// The stack of all compartments.
    pub stack: Spot,
    /// The first address of the monitor's block in RAM.
    pub monitor: u32,
    /// The entry of `main`, with bit 0 set.
    pub main: u32,
    /// The compartment of `main`.
    pub main_comp: u32,
    /// Whether the board is closed.
    pub closed: bool,
}

impl Drop for Tables {
    fn drop(self) {
        let Tables {
            base: _,
            comps: _,
            sites: _,
            targets: _,
            lends: _,
            inits: _,
            words: _,
            stack: _,
            monitor: _,
            main: _,
            main_comp: _,
            closed: _,
        } = self;
    }
}
