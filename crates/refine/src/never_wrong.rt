//! The function is a law and does nothing.

ghost use Rattle.refine.specs.NeverWrong.{ServedImagesAreNeverWrong};

/// A machine's events are the source's first ones at each step, and it ends as the source does or for want of stack, if for each
/// number of source steps it does as much or stops for want of stack.
pub fn never_wrong()
    ensures { ServedImagesAreNeverWrong }
{}
