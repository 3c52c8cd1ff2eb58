//! Laws of the code of whole functions and of compartments.

ghost use Rattle.code_lower_laws.specs.Reaching.{FunctionsReach, CompartmentsReach};
ghost use Rattle.code_lower_laws.specs.Fitting.{TypedFunctionsFit, TypedJumpsInside};

/// Every branch of a function's code reaches its label.
pub fn functions()
    ensures { FunctionsReach }
{
    code_model::laws::sizes();
}

/// Every branch of a compartment's code reaches its label.
pub fn compartments()
    ensures { CompartmentsReach }
{
    code_model::laws::sizes();
    functions();
}

/// Code is made for each function of a typed firmware within the limits, and its jumps go to its own blocks.
pub fn typed_functions()
    ensures fit { TypedFunctionsFit }
    ensures inside { TypedJumpsInside }
{
    ir_laws::typing::places();
    ir_laws::limits::counts();
    code_model::laws::frames();
    code_model::frame_laws::checked_frames_fit();
}
