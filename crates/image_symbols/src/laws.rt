//! Laws: functions that do nothing, whose contract is the law.

ghost use Rattle.image_symbols.specs.Standing.{FunctionsStand, PlacesStand};
ghost use Rattle.image_symbols.specs.Told.{LinesTellPlaces, LinesTellBytes};

/// The bytes of each function's code stand at its address, in the image of a planned firmware.
pub fn functions_stand()
    ensures { FunctionsStand }
{
    image_promises::promises::code();
    image_promises::code::code();
}

/// The bytes of each place of a block stand at its address too.
pub fn places_stand()
    ensures { PlacesStand }
{
    functions_stand();
    code_model::laws::sizes();
    code_model::laws::pieces();
}

/// Each thing has one place among its lines, with its address; and the bytes of a global's line are those of the global.
pub fn lines_tell()
    ensures places { LinesTellPlaces }
    ensures bytes { LinesTellBytes }
{}
