//! What a run of an image prints: a function that does nothing, whose contract is the law.

ghost use Rattle.aces_compiler.specs.PrintedRuns.{RefiningImagesAreAlike};

use machine_model::resets::starts;

/// Where a source run meets no fault and stays within the limit of the stack, an image that refines the firmware prints the same lines in
/// some number of machine steps, and ends with the same status.
pub fn runs_are_alike()
    ensures { RefiningImagesAreAlike }
{
    starts();
}
