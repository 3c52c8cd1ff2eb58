//! Firmwares: whether they are typed, their canonical texts, their frames, and runs of them. What they give was worked out
//! by hand from the language.

ghost use Rattle.example_machine.specs.StoredPointer.{MeetsLaws};
ghost use Rattle.example_machine.specs.Control.{ComputesControl};
ghost use Rattle.example_machine.specs.Lending.{ComputesLending};
ghost use Rattle.example_machine.specs.Calls.{ComputesCalls};
ghost use Rattle.example_machine.specs.Table.{ComputesTable};
ghost use Rattle.example_machine.specs.Small.{ComputesSmall};
ghost use Rattle.example_machine.specs.Refused.{ComputesRefused};
ghost use Rattle.example_machine.specs.Spelling.{ComputesSpelling};
ghost use Rattle.example_machine.specs.Shortest.{ComputesShortest};
ghost use Rattle.example_machine.specs.Frame.{ComputesFrame};

/// Typed firmwares, each with its events and its end: a control loop in four files, a lent local and one whose function has
/// returned, functions that call each other, a table of functions with a null cell, and small ones.
pub fn runs()
    ensures of_control { ComputesControl }
    ensures of_lending { ComputesLending }
    ensures of_calls { ComputesCalls }
    ensures of_table { ComputesTable }
    ensures of_small { ComputesSmall }
{}

/// A firmware for each kind of fault, with its first fault and the place of that.
pub fn refusals()
    ensures { ComputesRefused }
{}

/// The canonical text of each form, and the tokens at which limits are passed.
pub fn texts()
    ensures of_forms { ComputesSpelling }
    ensures of_shortest { ComputesShortest }
{}

/// The places of a function's frame.
pub fn frames()
    ensures { ComputesFrame }
{}

/// A firmware that is typed and within the limits, with closed sets of objects that leave most objects out.
pub fn stored_pointer()
    ensures { MeetsLaws }
{}
