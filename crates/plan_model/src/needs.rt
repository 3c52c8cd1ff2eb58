//! What the functions of a firmware may reach.

use base_lists::ListVec;
use ir_model::object::ObjId;

/// What a function may reach by its own instructions. Each list is in rising order, without repeats.
pub struct FuncNeed {
    /// The objects that its stores may write: globals that are not constant, peripherals and locals.
    pub written: ListVec<ObjId>,
    /// The objects that its loads may read: globals, peripherals and locals.
    pub read: ListVec<ObjId>,
    /// The numbers of the peripherals among both.
    pub periphs: ListVec<u32>,
    /// The functions that its calls may go to, without those that these call in turn.
    pub callees: ListVec<u32>,
}

impl Drop for FuncNeed {
    fn drop(self) {
        let FuncNeed {
            written: _,
            read: _,
            periphs: _,
            callees: _,
        } = self;
    }
}

/// A call or an indirect call.
pub struct SiteNeed {
    /// The function in which it stands.
    pub func: u32,
    /// The block of that function.
    pub block: u32,
    /// Its place among the instructions of that block.
    pub inst: u32,
    /// The functions that it may go to, in rising order, without repeats.
    pub targets: ListVec<u32>,
}

impl Drop for SiteNeed {
    fn drop(self) {
        let SiteNeed {
            func: _,
            block: _,
            inst: _,
            targets: _,
        } = self;
    }
}

/// What the functions of a firmware may reach.
pub struct Needs {
    /// What each function may reach.
    pub funcs: ListVec<FuncNeed>,
    /// The calls and indirect calls of all functions, in the order of the text.
    pub sites: ListVec<SiteNeed>,
    /// The locals that are lent while their function is live, each as its function's number and its own, in rising order.
    pub lendable: ListVec<(u32, u32)>,
    /// Whether they are the needs of a closed board, on which loads are confined as stores are.
    pub closed: bool,
}

impl Drop for Needs {
    fn drop(self) {
        let Needs {
            funcs: _,
            sites: _,
            lendable: _,
            closed: _,
        } = self;
    }
}
