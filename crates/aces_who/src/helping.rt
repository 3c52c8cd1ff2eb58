//! `help`: what the program's commands are, with their words.

ghost use Rattle.std.specs.Prelude.{◌≡◌};
ghost use Rattle.aces_words.specs.Requests.{Help as ToHelp};
ghost use Rattle.base_outside.specs.Sinks.{sink};
ghost use Rattle.aces_files.specs.CarriesOut.{CarriesOut};
ghost use Rattle.aces_who.specs.Answers.{AnswerToHelp};
ghost use Rattle.aces_who.specs.HelpText as texts;

use aces_reports::{Done, Failure};
use base_outside::{Files, Sink};

/// The lines.
fn help_text() -> &'static [u8]
    ensures { result.now ≡ texts.help_text }
{
    b"aces 1\n\
aces compile FIRMWARE BOARD POLICY IMAGE: writes the image of a firmware for a board\n\
aces run IMAGE TAPE N: runs an image on recorded input for at most N machine steps\n\
aces bin IMAGE FILE: writes the flash bytes of an image\n\
aces check FIRMWARE: checks a firmware, or tells its first fault\n\
aces source FIRMWARE POLICY TAPE N: runs the source on recorded input for at most N steps\n\
aces list FIRMWARE BOARD POLICY: the compartments on a board, and what lies where\n\
aces stack FIRMWARE BOARD POLICY: how much of the stack the calls need\n\
aces audit IMAGE: checks an image from anyone\n\
aces tables IMAGE: what the tables of an image say\n\
aces watch IMAGE TAPE N ADDRESS: runs an image up to its first access at an address\n\
aces state IMAGE TAPE N: what the machine holds after at most N steps\n\
aces help: these lines\n\
aces who FIRMWARE BOARD POLICY: who may write, read and use what, and who needs it\n\
aces why FIRMWARE: what each load, store and call may reach\n\
aces symbols FIRMWARE BOARD POLICY: what lies where in an image, for a debugger\n\
aces where FIRMWARE POLICY TAPE N: where the source stands after at most N steps\n\
aces selftest SEED SIZE: runs source and image of a generated firmware, and compares both\n\
aces explain FIRMWARE: the first fault of a firmware with its place, what was found, and the rule\n\
aces explain FIRMWARE BOARD POLICY: the same, and what a board's text or its room refuses\n\
POLICY is filename, optimized or peripheral\n\
N is from 0 to 4294967295, in decimal digits without a leading zero\n\
SEED is as N, and SIZE is from 1 to 200\n\
ADDRESS is from 0 to 4294967295, as firmwares have numbers: 4096 or 0x1000\n\
status 0: done\n\
status 1: a fault in a file, or a limit that a firmware passes\n\
status 2: words of no request\n\
status 3: a board has no room, or denies what a firmware reaches\n\
status 4: a file was not read\n\
status 5: a file or the output was not written\n\
status 6: memory ran out\n\
status 7: a run ended badly, or a self-test differs\n\
status 8: a no of stack, audit or tables\n\
status 9: the system did not give the words\n"
}

/// Prints the commands with their words, the policies, what numbers may be, and the statuses, a line each. No file is touched.
pub fn print_help<'a, F: Files, O: Sink>(files: &F, out: &mut O) -> Result<Done, Failure<'a>>
    ensures { CarriesOut AnswerToHelp F.Files files.now files.now ToHelp (sink O.Sink out.old) (sink O.Sink out.new) result }
{
    match out.put(help_text()) {
        Ok(()) => Ok(Done::Completed),
        Err(_) => Err(Failure::Unprinted),
    }
}
