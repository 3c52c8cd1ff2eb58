//! What the words behind the program's name ask for.

ghost use Rattle.std.specs.Prelude.{ℕ, map, string_bytes, IfSome, IfNone};
ghost use Rattle.aces_words.specs.Requests.{Help, Selftest, Asks, IsUsage};
ghost use Rattle.aces_words.specs.Commands.{request_of};

use crate::firmwares::{FirmwareCommand, firmware_command};
use crate::images::{ImageCommand, image_command};
use crate::numbers::{number, test_size};
use crate::plans::{PlanCommand, plan_command};

/// A command, with what its words name.
#[derive(Clone, Copy)]
pub enum Command<'a> {
    /// A command on an image.
    Image(ImageCommand<'a>),
    /// A command on a firmware without a board.
    Firmware(FirmwareCommand<'a>),
    /// A command on a firmware and a board.
    Plan(PlanCommand<'a>),
    /// Tells the commands with their words, and the statuses.
    Help,
    /// Compiles the firmware that is made of a seed and a size, and compares a run of its image with one of its source.
    Selftest { seed: u32, size: u32 },
}

impl<'a> Command<'a> {
    /// The command of these words; `None` where they ask for none.
    pub fn of_words(words: &'a [String]) -> Option<Command<'a>>
        ensures command { IfSome result (λ c. Asks (map string_bytes words.now) (request_of c)) }
        ensures usage { IfNone result (IsUsage (map string_bytes words.now)) }
    {
        if let Some(command) = image_command(words) {
            return Some(Command::Image(command));
        }
        if let Some(command) = firmware_command(words) {
            return Some(Command::Firmware(command));
        }
        if let Some(command) = plan_command(words) {
            return Some(Command::Plan(command));
        }
        if let Some(command) = help_of(words) {
            return Some(command);
        }
        selftest_of(words)
    }
}

/// `help`, if the words are of that form.
fn help_of(words: &[String]) -> Option<Command<'_>>
    ensures command { IfSome result (λ c. Asks (map string_bytes words.now) (request_of c)) }
    ensures none { IfNone result (Asks (map string_bytes words.now) Help → ⊥) }
{
    match words {
        [name] if name.as_str() == "help" => { Some(Command::Help) }
        _ => None,
    }
}

/// `selftest SEED SIZE`, if the words are of that form.
fn selftest_of(words: &[String]) -> Option<Command<'_>>
    ensures command { IfSome result (λ c. Asks (map string_bytes words.now) (request_of c)) }
    ensures none { IfNone result ((seed size : ℕ) → Asks (map string_bytes words.now) (Selftest seed size) → ⊥) }
{
    match words {
        [name, seed, size] if name.as_str() == "selftest" => {
            let seed = number(seed.as_str())?;
            let size = test_size(size.as_str())?;
            Some(Command::Selftest { seed, size })
        }
        _ => None,
    }
}
