//! What a command prints.

ghost use Rattle.base_outside.specs.Sinks.{sink};
ghost use Rattle.aces_files.specs.Tellings.{Prints};

use aces_reports::{Done, Failure};
use base_outside::Sink;

/// Lines, and how the command that prints them ends.
pub struct CommandOutput {
    /// The lines.
    pub lines: Vec<u8>,
    /// The end.
    pub done: Done,
}

impl Drop for CommandOutput {
    fn drop(self) {
        let CommandOutput { lines: _, done: _ } = self;
    }
}

/// Prints these lines, and answers `done`.
pub fn print<'a, O: Sink>(lines: &[u8], done: Done, out: &mut O) -> Result<Done, Failure<'a>>
    ensures { Prints (sink O.Sink out.old) (sink O.Sink out.new) lines.now done result }
{
    match out.put(lines) {
        Ok(()) => Ok(done),
        Err(_) => Err(Failure::Unprinted),
    }
}
