//! The commands on firmwares, without a board.

ghost use Rattle.std.specs.Prelude.{map, string_bytes, IfSome, IfNone};
ghost use Rattle.aces_words.specs.Requests.{Asks};
ghost use Rattle.aces_words.specs.Commands.{firmware_request, AsksOfNoFirmware};

use crate::numbers::number;
use plan_model::Policy;

/// A command on a firmware without a board, with what its words name.
#[derive(Clone, Copy)]
pub enum FirmwareCommand<'a> {
    /// Reads and checks a firmware.
    Check {
        firmware: &'a str,
    },
    /// Tells what each access and call of a firmware may reach.
    Why {
        firmware: &'a str,
    },
    /// Runs the source of a firmware on a tape for at most so many steps, in the compartments of a policy.
    Source {
        firmware: &'a str,
        policy: Policy,
        tape: &'a str,
        steps: u32,
    },
    /// Tells where the source of a firmware stands after at most so many steps on a tape, in the compartments of a policy.
    Where {
        firmware: &'a str,
        policy: Policy,
        tape: &'a str,
        steps: u32,
    },
    /// Tells why a firmware is refused and what to do, or that it is not.
    Explain {
        firmware: &'a str,
    },
}

/// The command that takes a firmware and no board that these words ask for, if they ask for one.
pub(crate) fn firmware_command(words: &[String]) -> Option<FirmwareCommand<'_>>
    ensures command { IfSome result (λ c. Asks (map string_bytes words.now) (firmware_request c)) }
    ensures none { IfNone result (AsksOfNoFirmware (map string_bytes words.now)) }
{
    let [name, firmware, rest @ ..] = words else {
        return None;
    };
    let firmware = firmware.as_str();
    match (name.as_str(), rest) {
        ("check", []) => Some(FirmwareCommand::Check { firmware }),
        ("why", []) => Some(FirmwareCommand::Why { firmware }),
        ("explain", []) => Some(FirmwareCommand::Explain { firmware }),
        ("source", [policy, tape, steps]) => Some(FirmwareCommand::Source {
            firmware,
            policy: Policy::of_word(policy.as_str())?,
            tape: tape.as_str(),
            steps: number(steps.as_str())?,
        }),
        ("where", [policy, tape, steps]) => Some(FirmwareCommand::Where {
            firmware,
            policy: Policy::of_word(policy.as_str())?,
            tape: tape.as_str(),
            steps: number(steps.as_str())?,
        }),
        _ => None,
    }
}
