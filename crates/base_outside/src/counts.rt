// What the words on counts of faults say of several calls.
ghost use Rattle.std.specs.Prelude.{ℕ, ◌≤◌};
ghost use Rattle.base_outside.specs.Counts.{Rose, Stayed};

/// Laws of counts over several calls: what rose in one of them rose over all of them, and a count that
/// stayed didn't rise.
pub fn counts_compose()
    ensures later { (first middle last : ℕ) → Rose first middle → middle ≤ last → Rose first last }
    ensures earlier { (first middle last : ℕ) → first ≤ middle → middle ≤ last → Rose middle last → Rose first last }
    ensures stayed { (first last : ℕ) → Stayed first last → Rose first last → ⊥ }
{}
