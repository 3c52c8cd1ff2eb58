//! What a step may do, whatever bytes it executes. Each function is a law and does nothing.

ghost use Rattle.machine_model.specs.ThreadStep.{
  UnprivilegedStepsAreThreadSteps,
  EntriesStoreFrames,
  EntriesLoadVectors,
  UnprivilegedAccessesAreReached,
  VectorReadsAreAligned,
};
ghost use Rattle.machine_model.specs.AnyStep.{StoresAreListed};
ghost use Rattle.machine_model.specs.Asked.{TakenActsAreDone, StandingActsAreDone};

/// A step that begins unprivileged either ends the machine and does nothing else; or goes on in Thread mode, with
/// permitted accesses alone, the same protection, fault status, stack in use and other stack pointer; or enters the
/// exception of the SVC that stands at the program counter, or of the fetch or the first data access that protection
/// refuses, with the exact fault status and return address (B1.5.6, B1.5.14, B3.2.15).
pub fn unprivileged_steps()
    ensures { UnprivilegedStepsAreThreadSteps }
{}

/// An exception entry stores the eight words of its frame and loads its vector, and nothing else (B1.5.6).
pub fn entries()
    ensures stores { EntriesStoreFrames }
    ensures loads { EntriesLoadVectors }
{}

/// Each access that an unprivileged step lists, pushes of an entry included, has 1, 2 or 4 bytes, at a multiple of
/// them, each of which is permitted to unprivileged code, but for the aligned read of an exception's vector.
pub fn unprivileged_accesses()
    ensures reached { UnprivilegedAccessesAreReached }
    ensures vectors { VectorReadsAreAligned }
{}

/// Under any test of permission, in any mode, RAM outside the listed stores stays. The protection unit's registers
/// change by a listed store to the private peripheral bus, and the fault status by such a store or by an entry.
pub fn listed_stores()
    ensures { StoresAreListed }
{}

/// The turn of an instruction stores and loads what it asks for, in that order, or nothing where it ends the
/// machine, or it is an exception's entry: of the SVC, or of its first refused access. This holds of each instruction
/// that was fetched, and of each that stands at the program counter.
pub fn performed_accesses()
    ensures of_taken { TakenActsAreDone }
    ensures of_standing { StandingActsAreDone }
{}
