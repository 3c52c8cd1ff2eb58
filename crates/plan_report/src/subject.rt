//! What a listing speaks of.

ghost use Rattle.std.specs.Prelude.{◌≡◌, length};

use ir_model::firmware::Firmware;
use ir_program::program::Program;
use plan_model::graph::Final;
use plan_model::needs::Needs;
use plan_model::plan::{Board, Plan};

/// A firmware with its compartments on a board.
#[derive(Clone, Copy)]
pub struct Subject<'a> {
    /// The firmware, by its names.
    pub firmware: &'a Firmware,
    /// The same with numbers for its names.
    pub program: &'a Program<'a>,
    /// What its functions may reach.
    pub needs: &'a Needs,
    /// Its compartments and their regions.
    pub graph: &'a Final,
    /// Where all lies.
    pub plan: &'a Plan,
    /// The board.
    pub board: &'a Board,
    /// There is a compartment for each function.
    pub ghost each_group: { length graph.now.groups.of ≡ length needs.now.funcs },
}
