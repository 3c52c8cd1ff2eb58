//! The least sets of objects of a program.

ghost use Rattle.std.specs.Prelude.{◌≡◌, ◌-◌, ◌<◌, length, IfOk};
ghost use Rattle.std.specs.List.{sum};
ghost use Rattle.ir_laws.specs.Sets.{Node};
ghost use Rattle.ir_model.specs.State.{Object};
ghost use Rattle.ir_program.specs.Seen.{program_of};
ghost use Rattle.need_sets.specs.Numbers.{numbering_of};
ghost use Rattle.need_sets.specs.Sets.{Sets, sets_of};
ghost use Rattle.need_sets.specs.Pairs.{sets_by};
ghost use Rattle.plan_model.specs.PointsTo.{IsLeast};
ghost use Rattle.need_points_to.specs.Edges.{IsWithinBound};

use ir_program::program::Program;
use need_constraints::generate;
use need_numbers::StepCount;
use need_sets::{Pairs, PointsTo, number_program};
use need_solving::least_pairs;
use std::alloc::{AllocError, Global};
use std::marker::Brand;
use std::sync::ledger::{Blank, Ledger};

fn search<L: Ledger>(
    alloc: Global,
    program: &Program,
    steps: &mut StepCount<L>,
) -> Result<Pairs, AllocError>
    ensures nodes { IfOk result (λ pairs. length pairs.rows ≡ sum (numbering_of (program_of program.now)).nodes) }
    ensures objects { IfOk result (λ pairs. pairs.objects ≡ sum (numbering_of (program_of program.now)).objects) }
    ensures least { IfOk result (λ pairs. IsLeast (program_of program.now) (sets_by (numbering_of (program_of program.now)) pairs.rows)) }
    ensures steps { IfOk result (λ pairs. (s : Sets) → ((n : Node) (o : Object) → sets_of s n o ≡ sets_by (numbering_of (program_of program.now)) pairs.rows n o) → IsWithinBound (program_of program.now) s (steps.new - steps.old)) }
{
    let numbering = number_program(alloc, program)?;
    let system = generate(alloc, program, numbering)?;
    let nodes = system.numbering.node_count();
    let objects = system.numbering.object_count();
    least_pairs(&system, alloc, nodes, objects, steps)
}

/// The least sets of objects of a program: no step of a run leaves them, and all sets that no step leaves have their objects. The steps
/// are counted: three at most for each object that is named, for each edge, and for each object that an edge passes on.
///
/// # Errors
///
/// There is no memory for them, or the program names what it does not have.
pub fn solve_counted<L: Ledger>(
    alloc: Global,
    program: &Program,
    steps: &mut StepCount<L>,
) -> Result<PointsTo, AllocError>
    ensures least { IfOk result (λ sets. IsLeast (program_of program.now) (sets_of sets)) }
    ensures steps { IfOk result (λ sets. IsWithinBound (program_of program.now) sets (steps.new - steps.old)) }
{
    let pairs = search(alloc, program, steps)?;
    pairs.into_sets(alloc, program)
}

fn solve_on<L: Ledger>(
    alloc: Global,
    program: &Program,
    blank: Blank,
) -> Result<PointsTo, AllocError>
    requires name { blank.name ≡ L.name }
    requires parts { blank.parts ≡ L.parts }
    requires some { 0 < blank.parts }
    ensures { IfOk result (λ sets. IsLeast (program_of program.now) (sets_of sets)) }
{
    let mut steps = StepCount::<L>::new(blank);
    solve_counted(alloc, program, &mut steps)
}

/// The least sets of objects of a program.
///
/// # Errors
///
/// There is no memory for them, or the program names what it does not have.
pub fn solve(alloc: Global, program: &Program) -> Result<PointsTo, AllocError>
    ensures { IfOk result (λ sets. IsLeast (program_of program.now) (sets_of sets)) }
{
    solve_on::<Brand>(alloc, program, Blank::new(1))
}
