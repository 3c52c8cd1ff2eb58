//! How long the monitor's code is. The function is a law and does nothing.

ghost use Rattle.monitor_program.specs.CodeSize.{CodeFits, StubIsThere, PagesAreFull};

/// The code of start-up and of both handlers fits behind the vectors for any tables, with the leave stub where the code has its
/// address, and the page has 4,096 bytes.
pub fn page_is_full()
    ensures fits { CodeFits }
    ensures stub { StubIsThere }
    ensures full { PagesAreFull }
{}
