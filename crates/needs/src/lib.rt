//! What each function of a firmware may write, read and call; no step of a run leaves it.
#![tactic(auto)]

ghost use Rattle.std.specs.Prelude.{IfOk};
ghost use Rattle.ir_program.specs.Seen.{program_of};
ghost use Rattle.need_sets.specs.Sets.{sets_of};
ghost use Rattle.plan_model.specs.Needs.{AreNeeds};
ghost use Rattle.ir_model.specs.Checked.{IsChecked};
ghost use Rattle.need_laws.specs.Checked.{AreSets};
ghost use Rattle.need_laws.specs.Reached.{RunsStayInNeeds};
ghost use Rattle.needs.specs.Bounds.{HasSmallNumbers, RegistersAreThere};
ghost use Rattle.needs.specs.Targets.{FunctionsAreThere};

mod calls;
mod instructions;
mod lending;
mod need;
mod objects;
mod reaching;
mod sites;
mod targets;

use base_lists::ListVec;
pub use calls::callees;
pub use instructions::{Access, Use, uses};
use ir_laws::limits::counts;
use ir_laws::typing::places;
use ir_program::program::Program;
pub use lending::lendable;
use need_laws::runs;
use need_sets::PointsTo;
use plan_model::needs::Needs;
pub use reaching::recursive;
pub use sites::push_sites;
use std::alloc::{AllocError, Global};

fn all_needs(
    alloc: Global,
    program: &Program,
    pts: &PointsTo,
    closed: bool,
) -> Result<Needs, AllocError>
    requires numbers { HasSmallNumbers (program_of program.now) }
    requires registers { RegistersAreThere (program_of program.now) }
    requires there { FunctionsAreThere (program_of program.now) (sets_of pts.now) }
    ensures { IfOk result (AreNeeds (program_of program.now) (sets_of pts.now) closed) }
{
    let mut funcs = Vec::new(alloc);
    let mut sites = Vec::new(alloc);
    for func in 0..program.funcs.len() {
        let targets = targets::all_targets(alloc, program, pts, func)?;
        push_sites(alloc, program, func, targets.as_slice(), &mut sites)?;
        funcs.push(need::need(alloc, program, pts, func, targets.as_slice())?)?;
    }
    let lendable = lendable(alloc, program, funcs.as_slice(), closed)?;
    Ok(Needs {
        funcs: ListVec::new(funcs),
        sites: ListVec::new(sites),
        lendable: ListVec::new(lendable),
        closed,
    })
}

/// What each function of a firmware may write, read and call, by the sets of objects of its nodes; for a closed board, on which loads
/// are confined as stores are, or an open one. No step of any run of the firmware leaves it.
///
/// # Errors
///
/// There is no memory for it.
pub fn needs(
    alloc: Global,
    program: &Program,
    pts: &PointsTo,
    closed: bool,
) -> Result<Needs, AllocError>
    requires program { IsChecked (program_of program.now) }
    requires sets { AreSets (program_of program.now) (sets_of pts.now) }
    ensures exact { IfOk result (AreNeeds (program_of program.now) (sets_of pts.now) closed) }
    ensures kept { IfOk result (RunsStayInNeeds (program_of program.now)) }
{
    places();
    counts();
    runs();
    all_needs(alloc, program, pts, closed)
}
