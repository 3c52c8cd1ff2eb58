//! Sets of objects, from pairs of a node and an object.

ghost use Rattle.std.specs.Prelude.{◌≡◌, ℕ, ◌<◌, length, get_or, map, IfOk, Contains};
ghost use Rattle.std.specs.List.{sum};
ghost use Rattle.ir_model.specs.Objects.{compare_objects};
ghost use Rattle.ir_model.specs.State.{Object};
ghost use Rattle.ir_laws.specs.Sets.{Node};
ghost use Rattle.ir_program.specs.Seen.{program_of};
ghost use Rattle.plan_model.specs.Lists.{ListsExactly};
ghost use Rattle.need_sets.specs.Numbers.{numbering_of};
ghost use Rattle.need_sets.specs.Sets.{sets_of};
ghost use Rattle.need_sets.specs.Pairs.{IsWithin, object_at, sets_by};

use crate::numbers::number_program;
use crate::{PointsTo, SharedRows};
use ir_model::object::ObjId;
use ir_program::program::Program;
use need_lists::each_once;
use need_numbers::Rows;
use std::alloc::{AllocError, Global};

/// The objects at places of a list, in rising order.
fn named(alloc: Global, by_number: &[ObjId], places: &[u32]) -> Result<Vec<ObjId>, AllocError>
    requires { (k : ℕ) → k < length places.now → get_or places.now k 0 < length by_number.now }
    ensures { IfOk result (λ objects. ListsExactly compare_objects (Contains (map (object_at by_number.now) places.now)) objects.items) }
{
    let mut objects = Vec::new(alloc);
    for place in places {
        objects.push(by_number[*place as usize])?;
    }
    each_once(objects)
}

/// The sets of objects by their numbers.
pub(crate) fn finish(alloc: Global, program: &Program, lists: &Rows) -> Result<PointsTo, AllocError>
    requires nodes { length lists.now ≡ sum (numbering_of (program_of program.now)).nodes }
    requires objects { IsWithin (sum (numbering_of (program_of program.now)).objects) lists.now }
    ensures numbers { IfOk result (λ sets. sets.numbers ≡ numbering_of (program_of program.now)) }
    ensures exact { IfOk result (λ sets. (n : Node) (o : Object) → sets_of sets n o ≡ sets_by (numbering_of (program_of program.now)) lists.now n o) }
{
    let numbering = number_program(alloc, program)?;
    let by_number = numbering.all_objects(alloc)?;
    let mut rows = SharedRows::new(alloc, lists.len())?;
    for node in 0..lists.len() {
        let places = lists.items(alloc, node)?;
        let objects = named(alloc, by_number.as_slice(), places.as_slice())?;
        rows.push(objects)?;
    }
    Ok(PointsTo::new(numbering, rows))
}
