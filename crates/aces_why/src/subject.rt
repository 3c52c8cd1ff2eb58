//! The subject of the lines: a firmware with what was found of it.

use base_lists::ListVec;
use ir_model::firmware::Firmware;
use ir_model::object::ObjId;
use ir_program::program::Program;
use plan_model::needs::Needs;

/// What is found of a program.
pub struct Findings {
    /// What its functions may reach, on an open board.
    pub needs: Needs,
    /// For each function and each of its registers, the objects that it may stand for, in rising order.
    pub sets: ListVec<ListVec<ListVec<ObjId>>>,
    /// For each function, whether it is `main`, or calls lead to it from there.
    pub called: ListVec<bool>,
    /// For each function and each of its blocks, whether it is the first, or is reached from there.
    pub entered: ListVec<ListVec<bool>>,
}

impl Drop for Findings {
    fn drop(self) {
        let Findings {
            needs: _,
            sets: _,
            called: _,
            entered: _,
        } = self;
    }
}

/// A firmware with what was found of it.
#[derive(Clone, Copy)]
pub struct Subject<'a> {
    /// The firmware, by its names.
    pub firmware: &'a Firmware,
    /// The same with numbers for its names.
    pub program: &'a Program<'a>,
    /// What was found.
    pub found: &'a Findings,
}
