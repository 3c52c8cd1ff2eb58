// What takes the bytes that the program prints.
ghost use Rattle.std.specs.Prelude.{◌≡◌, ℕ, Bool, IsTrue, List, [], ◌++◌, IsOk, OnOk, OnErr};
ghost use Rattle.base_outside.specs.Counts.{Rose, Counts};
ghost use Rattle.base_outside.specs.Contents.{AddsPrefix};

use crate::Failed;

/// Takes bytes, one piece after another. A call may fail, and a count of faults tells that it did.
///
/// Where what was written isn't told, `written` is any value that the clauses allow.
pub trait Sink {
    /// Whether what was written is told. It belongs to the type, so no call changes it.
    ghost told: { Bool };

    /// The bytes written so far.
    ghost written: { Self → List ℕ };

    /// How many calls have failed. A count of 64 bits stays at its last value.
    ghost faults: { Self → ℕ };

    /// Writes the whole piece. An empty piece is always written.
    ///
    /// # Errors
    /// `Failed` at a fault. Then a prefix of the piece was written.
    fn put(&mut self, piece: &[u8]) -> Result<(), Failed>
        ensures bytes { IsTrue told → OnOk result (written self.new ≡ written self.old ++ piece.now) }
        ensures empty { piece.now ≡ [] → IsOk result }

        ensures cause { OnErr result (Rose (faults self.old) (faults self.new)) }
        ensures failed { OnErr result (AddsPrefix (written self.old) (written self.new) piece.now) }

        ensures counts { Counts (faults self.old) (faults self.new) result };
}
