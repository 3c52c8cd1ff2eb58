//! Monitors that do not isolate: what is found in a run of theirs is found in none that tells who runs, or keeps memory. Each function is
//! a law and does nothing.

ghost use Rattle.monitor_runs.specs.Refused.{
  StoresForAnybody,
  CallsAtFullStack,
  LendsAnything,
  StartsBeyondTheStack,
  RewritesCalls,
  SkipsRefusedAccess,
  LoopsInHandler,
  TellsOfNone,
  KeepsFromNone,
};

/// An SVC 9 that stores for whoever asks, under another CUR that it sets back: by `own_steps` of `KeepsMemory`.
pub fn stores_for_anybody()
    ensures { KeepsFromNone StoresForAnybody }
{}

/// A call that does not lower TOP: by `moves` of `WhoRuns`.
pub fn calls_at_full_stack()
    ensures { TellsOfNone CallsAtFullStack }
{}

/// A lend without the test of its range: by `moves`.
pub fn lends_anything()
    ensures { TellsOfNone LendsAnything }
{}

/// A start-up that ends with TOP beyond the stack: by `begins`.
pub fn starts_beyond_the_stack()
    ensures { TellsOfNone StartsBeyondTheStack }
{}

/// An SVC 9 that rewrites the entries of calls that wait: by `moves`.
pub fn rewrites_calls()
    ensures { TellsOfNone RewritesCalls }
{}

/// A refused access that is skipped, or gone on from elsewhere: by `moves`.
pub fn skips_refused_access()
    ensures { TellsOfNone SkipsRefusedAccess }
{}

/// A handler that goes round for ever: by `returns`.
pub fn loops_in_handler()
    ensures { TellsOfNone LoopsInHandler }
{}
