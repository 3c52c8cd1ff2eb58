// Laws of the instruction table, each the clause of a function that does nothing.

ghost use Rattle.machine_thumb.specs.Laws.{IsUnambiguous, IsRoundTrip, ShowsItsLength, LeavesOut};

/// No halfwords are those of two instructions.
pub fn no_halfwords_are_two_instructions()
    ensures { IsUnambiguous }
{}

/// An instruction is decoded from its halfwords, whatever halfword follows a single one.
pub fn decoding_undoes_encoding()
    ensures { IsRoundTrip }
{}

/// The first halfword of an instruction says whether it has a second (A5.1).
pub fn first_halfword_shows_length()
    ensures { ShowsItsLength }
{}

/// UDF, empty lists, a store with its base in the list and not lowest, the program counter as a high
/// register, a CMP with high registers of two low ones, and the stack pointer or the program counter
/// where the manual calls it unpredictable are of no instruction.
pub fn excluded_forms_are_undefined()
    ensures { LeavesOut }
{}
