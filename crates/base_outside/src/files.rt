// Files by name, as the program sees them.
ghost use Rattle.std.specs.Prelude.{◌≡◌, ◌≢◌, ◌⊎◌, ◌≤◌, ℕ, Bool, IsTrue, List, [], ◌++◌, length, take, Option, Some, IsNone, is_ok, IsErr, IfOk, OnOk, OnErr, IfSome};
ghost use Rattle.std.specs.Option.{option_map};
ghost use Rattle.std.specs.Result.{result_ok};
ghost use Rattle.base_outside.specs.Counts.{Rose, Counts};
ghost use Rattle.base_outside.specs.Contents.{HoldsPrefix, ReadsFrom};
ghost use Rattle.base_outside.specs.Calls.{Call, Size, Read, Create, Append};

/// A call on the outside did not do what was asked. The counts of the object say whether it was a fault.
#[derive(Clone, Copy, PartialEq, Eq)]
pub struct Failed;

/// Files by name. Every call may fail. Two counts, of read faults and of write faults, tell a fault
/// from a name that isn't there.
///
/// Where the contents are told, the clauses on them say what each call does. Where they aren't, `held`
/// is any value that the clauses allow, and the counts are all that is known.
pub trait Files {
    /// Whether the contents are told. It belongs to the type, so no call changes it.
    ghost told: { Bool };

    /// The bytes that are held under a name, or `None` where the name isn't there.
    ghost held: { Self → List ℕ → Option (List ℕ) };

    /// How many calls to read have failed by a fault. A count of 64 bits stays at its last value.
    ghost read_faults: { Self → ℕ };

    /// How many calls to write have failed by a fault. A count of 64 bits stays at its last value.
    ghost write_faults: { Self → ℕ };

    /// The fact that this call on the first files, with its answer, left the second. It lets a caller say which calls were made, and what they
    /// answered, where the contents aren't told.
    ghost called: { Self → Call → Self → Type 0 } = { λ _ _ _. Unit {0} };

    /// How many bytes the name holds.
    ///
    /// # Errors
    /// `Failed` where the name isn't there, and at a read fault.
    fn size(&mut self, name: &str) -> Result<u64, Failed>
        ensures bytes { IsTrue told → IfOk result (λ n. option_map length (held self.old name.now) ≡ Some n) }
        ensures answer { called self.old (Size name.now (result_ok result)) self.new }

        // It fails only by a read fault or, where contents are told, if there is no such name. Without the
        // name no count rises.
        ensures cause { OnErr result (Rose (read_faults self.old) (read_faults self.new)
            ⊎ (IsTrue told × IsNone (held self.old name.now))) }
        ensures missing { IsTrue told → IsNone (held self.old name.now) →
            IsErr result × (read_faults self.new ≡ read_faults self.old) }

        ensures same { held self.new ≡ held self.old }
        ensures reads { Counts (read_faults self.old) (read_faults self.new) result }
        ensures writes { write_faults self.new ≡ write_faults self.old };

    /// Puts bytes that the name holds, from place `at` on, at the front of `buf`, and says how many. None
    /// only where `buf` is empty or `at` is at the end or past it; else there may be fewer than fit.
    ///
    /// # Errors
    /// `Failed` where the name isn't there, and at a read fault. Then `buf` may hold anything.
    fn read_at(&mut self, name: &str, at: u64, buf: &mut [u8]) -> Result<usize, Failed>
        ensures fits { IfOk result (λ n. n ≤ length buf.old) }
        ensures bytes { IsTrue told → IfOk result (λ n.
            IfSome (held self.old name.now) (λ bytes. ReadsFrom bytes at buf.new n)) }
        ensures answer { called self.old (Read name.now at (option_map (λ n. take n buf.new) (result_ok result))) self.new }

        ensures cause { OnErr result (Rose (read_faults self.old) (read_faults self.new)
            ⊎ (IsTrue told × IsNone (held self.old name.now))) }
        ensures missing { IsTrue told → IsNone (held self.old name.now) →
            IsErr result × (read_faults self.new ≡ read_faults self.old) }

        ensures same { held self.new ≡ held self.old }
        ensures reads { Counts (read_faults self.old) (read_faults self.new) result }
        ensures writes { write_faults self.new ≡ write_faults self.old };

    /// Makes the name hold no bytes, whether it was there or not.
    ///
    /// # Errors
    /// `Failed` at a write fault. Then the name holds what it held.
    fn create(&mut self, name: &str) -> Result<(), Failed>
        ensures bytes { IsTrue told → OnOk result (held self.new name.now ≡ Some []) }
        ensures answer { called self.old (Create name.now (is_ok result)) self.new }
        ensures elsewhere { (other : List ℕ) → other ≢ name.now → held self.new other ≡ held self.old other }

        ensures cause { OnErr result (Rose (write_faults self.old) (write_faults self.new)) }
        ensures failed { OnErr result (held self.new ≡ held self.old) }

        ensures reads { read_faults self.new ≡ read_faults self.old }
        ensures writes { Counts (write_faults self.old) (write_faults self.new) result };

    /// Adds the piece at the end of what the name holds.
    ///
    /// # Errors
    /// `Failed` where the name isn't there, and at a write fault. Then a prefix of the piece was added.
    fn append(&mut self, name: &str, piece: &[u8]) -> Result<(), Failed>
        ensures bytes { IsTrue told → OnOk result (held self.new name.now
            ≡ option_map (λ bytes. bytes ++ piece.now) (held self.old name.now)) }
        ensures answer { called self.old (Append name.now piece.now (is_ok result)) self.new }
        ensures elsewhere { (other : List ℕ) → other ≢ name.now → held self.new other ≡ held self.old other }

        ensures cause { OnErr result (Rose (write_faults self.old) (write_faults self.new)
            ⊎ (IsTrue told × IsNone (held self.old name.now))) }
        ensures missing { IsTrue told → IsNone (held self.old name.now) →
            IsErr result × (write_faults self.new ≡ write_faults self.old) }
        ensures failed { OnErr result (HoldsPrefix (held self.old name.now) (held self.new name.now) piece.now) }

        ensures reads { read_faults self.new ≡ read_faults self.old }
        ensures writes { Counts (write_faults self.old) (write_faults self.new) result };
}
