//! The commands on a firmware and a board.

ghost use Rattle.std.specs.Prelude.{◌∷◌, [], map, string_bytes, IfSome, IfNone};
ghost use Rattle.plan_model.specs.PolicyWords.{policy_word};
ghost use Rattle.aces_words.specs.Requests.{Asks};
ghost use Rattle.aces_words.specs.Commands.{plan_request, AsksOfNoPlan};

use plan_model::Policy;

/// A command on a firmware and a board, with what its words name.
#[derive(Clone, Copy)]
pub enum PlanCommand<'a> {
    /// Writes the image of a firmware for a board, in the compartments of a policy.
    Compile {
        firmware: &'a str,
        board: &'a str,
        policy: Policy,
        image: &'a str,
    },
    /// Lists the compartments of a firmware on a board, by a policy.
    List {
        firmware: &'a str,
        board: &'a str,
        policy: Policy,
    },
    /// Bounds what the calls of a firmware take of a board's stack, in the compartments of a policy.
    Stack {
        firmware: &'a str,
        board: &'a str,
        policy: Policy,
    },
    /// Tells by which compartments each object of a firmware may be reached on a board, by a policy, and which need it.
    Who {
        firmware: &'a str,
        board: &'a str,
        policy: Policy,
    },
    /// Tells what lies where in the image of a firmware on a board, in the compartments of a policy.
    Symbols {
        firmware: &'a str,
        board: &'a str,
        policy: Policy,
    },
    /// Tells why a firmware has no plan for a board by a policy and what to do, or that it has one.
    Explain {
        firmware: &'a str,
        board: &'a str,
        policy: Policy,
    },
}

/// The command that takes a firmware and a board that these words ask for, if they ask for one.
pub(crate) fn plan_command(words: &[String]) -> Option<PlanCommand<'_>>
    ensures command { IfSome result (λ c. Asks (map string_bytes words.now) (plan_request c)) }
    ensures none { IfNone result (AsksOfNoPlan (map string_bytes words.now)) }
{
    let [name, firmware, board, policy, rest @ ..] = words else {
        return None;
    };
    let (firmware, board) = (firmware.as_str(), board.as_str());
    let policy = Policy::of_word(policy.as_str())?;
    match (name.as_str(), rest) {
        (name, []) => told_command(name, firmware, board, policy),
        ("compile", [image]) => Some(PlanCommand::Compile {
            firmware,
            board,
            policy,
            image: image.as_str(),
        }),
        _ => None,
    }
}

/// The command of this name that tells something of a firmware on a board by a policy, and writes no file.
fn told_command<'a>(
    name: &str,
    firmware: &'a str,
    board: &'a str,
    policy: Policy,
) -> Option<PlanCommand<'a>>
    ensures command { IfSome result (λ c. Asks (name.now ∷ firmware.now ∷ board.now ∷ policy_word policy ∷ []) (plan_request c)) }
    ensures none { IfNone result (AsksOfNoPlan (name.now ∷ firmware.now ∷ board.now ∷ policy_word policy ∷ [])) }
{
    match name {
        "list" => Some(PlanCommand::List {
            firmware,
            board,
            policy,
        }),
        "stack" => Some(PlanCommand::Stack {
            firmware,
            board,
            policy,
        }),
        "who" => Some(PlanCommand::Who {
            firmware,
            board,
            policy,
        }),
        "symbols" => Some(PlanCommand::Symbols {
            firmware,
            board,
            policy,
        }),
        "explain" => Some(PlanCommand::Explain {
            firmware,
            board,
            policy,
        }),
        _ => None,
    }
}
