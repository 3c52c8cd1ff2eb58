//! What the functions of a firmware need.

ghost use Rattle.std.specs.Prelude.{◌≡◌, IfOk, length};
ghost use Rattle.ir_model.specs.Plain.{firmware_of, funcs_of};
ghost use Rattle.ir_model.specs.Resolve.{resolve};
ghost use Rattle.ir_program.specs.Seen.{program_of};
ghost use Rattle.need_sets.specs.Sets.{sets_of};
ghost use Rattle.plan_model.specs.PointsTo.{IsLeast};
ghost use Rattle.plan_compartments.specs.Analyses.{AreNeedsOf};

use ir_model::checked::Checked;
use ir_program::program::Program;
use need_laws::least_sets;
use need_sets::PointsTo;
use needs::needs;
use plan_model::needs::Needs;
use std::alloc::{AllocError, Global};

/// What the functions of a firmware need on an open or a closed board, by its program and the least sets of objects of that.
///
/// # Errors
///
/// There is no memory for it.
pub fn firmware_needs(
    alloc: Global,
    firmware: &Checked,
    program: &Program,
    sets: &PointsTo,
    closed: bool,
) -> Result<Needs, AllocError>
    requires program { program_of program.now ≡ resolve (firmware_of firmware.now) }
    requires sets { IsLeast (program_of program.now) (sets_of sets.now) }
    ensures exact { IfOk result (AreNeedsOf (firmware_of firmware.now) closed) }
    ensures each { IfOk result (λ n. length n.funcs ≡ length (funcs_of (firmware_of firmware.now))) }
{
    firmware.firmware();
    least_sets();
    let found = needs(alloc, program, sets, closed)?;
    Ok(found)
}
