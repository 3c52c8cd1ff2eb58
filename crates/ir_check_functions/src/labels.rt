//! Labels.

ghost use Rattle.std.specs.Prelude.{◌≡◌, [], map, IfOk};
ghost use Rattle.ir_model.specs.Typing.{label_checks};
ghost use Rattle.ir_check_scopes.specs.Found.{Finds};
ghost use Rattle.ir_check_scopes.specs.Spots.{place_of};

use ir_check_scopes::new_names::add_new;
use ir_check_scopes::{CheckFault, CheckPlaceRef};
use ir_model::firmware::Block;
use ir_names::Names;
use std::alloc::Global;

/// Whether the labels of blocks are new, and these labels.
pub fn labels<'a>(
    alloc: Global,
    spot: CheckPlaceRef,
    blocks: &'a [Block],
) -> Result<Names<'a>, CheckFault>
    ensures finds { Finds (label_checks (place_of spot.entry) [] blocks.now) result }
    ensures all { IfOk result (λ n. n ≡ map (λ b. b.label) blocks.now) }
{
    let mut seen = Names::new(alloc);
    for block in blocks {
        add_new(&mut seen, &block.label, spot)?;
    }
    Ok(seen)
}
