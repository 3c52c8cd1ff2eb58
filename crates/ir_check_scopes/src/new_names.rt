//! Names that have to be new.

ghost use Rattle.std.specs.Prelude.{◌≡◌, ◌∷◌, ◌++◌, [], OnOk};
ghost use Rattle.ir_model.specs.Typing.{is_new};
ghost use Rattle.ir_check_scopes.specs.Found.{Finds};
ghost use Rattle.ir_check_scopes.specs.Spots.{place_of};

use crate::check_place_ref::CheckPlaceRef;
use crate::fault::CheckFault;
use crate::found::twice;
use base_names::Name;
use ir_names::Names;

/// Whether a name is new among others.
pub fn require_new(names: &Names, name: &Name, spot: CheckPlaceRef) -> Result<(), CheckFault>
    ensures { Finds (is_new names.now name.now (place_of spot.entry) ∷ []) result }
{
    if names.has(name) {
        return Err(twice(name, spot));
    }
    Ok(())
}

/// Puts a name behind others if it is new among them.
pub fn add_new<'a>(
    names: &mut Names<'a>,
    name: &'a Name,
    spot: CheckPlaceRef,
) -> Result<(), CheckFault>
    ensures finds { Finds (is_new names.old name.now (place_of spot.entry) ∷ []) result }
    ensures grows { OnOk result (names.new ≡ names.old ++ name.now ∷ []) }
{
    if names.has(name) {
        return Err(twice(name, spot));
    }
    names.push(name)?;
    Ok(())
}
