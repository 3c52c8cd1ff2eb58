//! The limits of a firmware, over numbers.

ghost use Rattle.ir_laws.specs.Limits.{CountsAreLimited, SizesAreLimited, WindowsLieApart, LayoutsAreThere};

/// A firmware within the limits has no more items of each kind than the limit, in itself and in each function.
pub fn counts()
    ensures { CountsAreLimited }
{}

/// No global and no local of a firmware that passes the checks is larger than 65,536 bytes.
pub fn sizes()
    ensures { SizesAreLimited }
{}

/// The window of each peripheral of a firmware that passes the checks is an aligned power of two from 32 to 65,536 bytes,
/// inside 0x40000000 to 0x5FFFFFFF, and no two overlap.
pub fn windows()
    ensures { WindowsLieApart }
{}

/// The type of each global and of each local has a layout, in a firmware that passes the checks and is within the limits.
pub fn layouts()
    ensures { LayoutsAreThere }
{}
