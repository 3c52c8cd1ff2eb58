//! `stack`: the bound on the stack of a firmware on a board.

ghost use Rattle.std.specs.Prelude.{◌≡◌, ◌≤◌, Ok, IfOk, IfErr, length};
ghost use Rattle.aces_words.specs.Requests.{Stack, firmware_limit};
ghost use Rattle.aces_files.specs.Tellings.{told_outcome};
ghost use Rattle.aces_files.specs.Loads.{IsRefusal};
ghost use Rattle.aces_files.specs.CarriesOut.{CarriesOut};
ghost use Rattle.aces_stack.specs.Lines.{stack_status};
ghost use Rattle.aces_plans.specs.Answers.{StackAnswers, AnswerToStack};
ghost use Rattle.aces_reports.specs.Ends.{status_of};
ghost use Rattle.base_outside.specs.Sinks.{sink};

use aces_files::failure::planning_failure;
use aces_files::loading::{board_of, load_firmware_and};
use aces_files::telling::{CommandOutput, print};
use aces_firmwares::reading::firmware_of;
use aces_reports::{Done, Failure};
use aces_stack::stack_of;
use aces_stack::telling::stack_lines;
use base_outside::{Files, Sink};
use plan_model::Policy;
use refine_stack::answer::StackAnswer;
use std::alloc::Global;

/// Prints how many bytes of a board's stack the calls of a firmware need by a policy, and by which path; or the functions that call each other in
/// turn, for which there is no bound.
pub fn stack<'a, F: Files, O: Sink>(
    alloc: Global,
    firmware: &'a str,
    board: &'a str,
    policy: Policy,
    files: &mut F,
    out: &mut O,
) -> Result<Done, Failure<'a>>
    ensures { CarriesOut (AnswerToStack firmware.now board.now policy) F.Files files.old files.new (Stack firmware.now board.now policy) (sink O.Sink out.old) (sink O.Sink out.new) result }
{
    let both = load_firmware_and(alloc, files, firmware, board)?;
    let told = stack_by_bytes(
        alloc,
        firmware,
        both.first.as_slice(),
        board,
        both.second.as_slice(),
        policy,
    )?;
    print(told.lines.as_slice(), told.done, out)
}

/// The output by the bytes of both files, each behind its name. No file is touched, and nothing is printed.
fn stack_by_bytes<'a>(
    alloc: Global,
    firmware: &'a str,
    bytes: &[u8],
    board: &'a str,
    text: &[u8],
    policy: Policy,
) -> Result<CommandOutput, Failure<'a>>
    requires { length bytes.now ≤ firmware_limit }
    ensures ok { IfOk result (λ told. StackAnswers firmware.now board.now policy bytes.now text.now (told_outcome told)) }
    ensures err { IfErr result (IsRefusal (StackAnswers firmware.now board.now policy bytes.now text.now)) }
{
    let checked = firmware_of(alloc, firmware, bytes)?;
    let read = board_of(alloc, board, text)?;
    match stack_of(alloc, &checked, &read, policy) {
        Ok(answer) => {
            let lines = stack_lines(alloc, checked.firmware(), read.stack, &answer)?;
            let done = done_by(read.stack, &answer);
            Ok(CommandOutput { lines, done })
        }
        Err(refusal) => Err(planning_failure(alloc, checked.firmware(), &read, refusal)),
    }
}

/// How the command ends with an answer on a stack of so many bytes.
fn done_by(stack: u32, answer: &StackAnswer) -> Done
    ensures { status_of (Ok result) ≡ stack_status stack answer.now }
{
    match answer {
        StackAnswer::Cycle(_) => Done::Negative,
        StackAnswer::Bound { needed, .. } => {
            if *needed <= u64::from(stack) {
                Done::Completed
            } else {
                Done::Negative
            }
        }
    }
}
