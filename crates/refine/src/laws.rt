//! That images refine their firmwares: functions that do nothing, whose contract is the law.

ghost use Rattle.refine.specs.CodeLaws.{CodeLaws};
ghost use Rattle.refine.specs.Refinement.{LinkedImagesRefine, LinkedImagesRefineOrStop};
ghost use Rattle.refine.specs.SourceLaws.{SourceLaws};

use code_effects::laws::{
    accesses, branches, calls, compartments, entry, functions, items, returns, runs,
    sources as set_registers,
};
use code_lower_laws::laws::typed_functions;
use code_model::laws::{compartments as placed, sites, sizes};
use ir_laws::limits::windows;
use ir_laws::runs::{
    accesses as expected, contents, moves, registers, returns as agreeing, values,
};
use ir_laws::typing::places;
use ir_laws::{alignment, cells};
use need_laws::{accesses as needed, compartments as grouped, locals};

/// What generated code does, and where it stands.
pub fn code()
    ensures { CodeLaws }
{
    sizes();
    placed();
    sites();
    items();
    functions();
    compartments();
    runs();
    set_registers();
    accesses();
    branches();
    entry();
    calls();
    returns();
}

/// What typed firmwares, their runs and their needs are like.
pub fn sources()
    ensures { SourceLaws }
{
    places();
    cells();
    alignment();
    windows();
    typed_functions();
    values();
    registers();
    contents();
    agreeing();
    expected();
    moves();
    needed();
    grouped();
    locals();
}

/// An image refines its firmware, if the monitor keeps its law and the linker its promises.
pub fn refinement()
    ensures { LinkedImagesRefine }
{
    code();
    sources();
}

/// An image refines its firmware or stops for want of stack, however much stack its frames take, if also the law of the stack holds.
pub fn refinement_or_stop()
    ensures { LinkedImagesRefineOrStop }
{
    code();
    sources();
}
