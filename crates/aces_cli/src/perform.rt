//! A command is carried out.

ghost use Rattle.aces_words.specs.Requests.{IsWithin};
ghost use Rattle.aces_words.specs.Commands.{request_of, image_request, firmware_request, plan_request};
ghost use Rattle.aces_files.specs.CarriesOut.{CarriesOut};
ghost use Rattle.aces_cli.specs.Answer.{Answer};
ghost use Rattle.base_outside.specs.Sinks.{sink};

use crate::compile;
use aces_audit::{auditing, telling};
use aces_explain::{explaining, planned};
use aces_files::{bin, run};
use aces_firmwares::{check, source};
use aces_inspection::{holding, watching};
use aces_plans::{list, stack, symbolizing};
use aces_reports::{Done, Failure};
use aces_selftest::printing;
use aces_where::locating;
use aces_who::{helping, owning};
use aces_why::commanding;
use aces_words::{Command, FirmwareCommand, ImageCommand, PlanCommand};
use base_outside::{Files, Sink};
use std::alloc::Global;

/// Carries out a command.
pub(crate) fn perform<'a, F: Files, O: Sink>(
    alloc: Global,
    command: Command<'a>,
    files: &mut F,
    out: &mut O,
) -> Result<Done, Failure<'a>>
    requires { IsWithin (request_of command) }
    ensures { CarriesOut (Answer (request_of command.entry)) F.Files files.old files.new (request_of command.entry) (sink O.Sink out.old) (sink O.Sink out.new) result }
{
    match command {
        Command::Image(command) => on_image(alloc, command, files, out),
        Command::Firmware(command) => on_firmware(alloc, command, files, out),
        Command::Plan(command) => on_plan(alloc, command, files, out),
        Command::Help => helping::print_help(files, out),
        Command::Selftest { seed, size } => printing::print_selftest(alloc, seed, size, files, out),
    }
}

/// Carries out a command on an image.
fn on_image<'a, F: Files, O: Sink>(
    alloc: Global,
    command: ImageCommand<'a>,
    files: &mut F,
    out: &mut O,
) -> Result<Done, Failure<'a>>
    requires { IsWithin (image_request command) }
    ensures { CarriesOut (Answer (image_request command.entry)) F.Files files.old files.new (image_request command.entry) (sink O.Sink out.old) (sink O.Sink out.new) result }
{
    match command {
        ImageCommand::Run { image, tape, steps } => run::run(alloc, image, tape, steps, files, out),
        ImageCommand::Bin { image, file } => bin::bin(alloc, image, file, files),
        ImageCommand::Watch {
            image,
            tape,
            steps,
            address,
        } => watching::watch(alloc, image, tape, steps, address, files, out),
        ImageCommand::State { image, tape, steps } => holding::state(
            alloc, image, tape, steps, files, out,
        ),
        ImageCommand::Audit { image } => auditing::audit_image(alloc, image, files, out),
        ImageCommand::Tables { image } => telling::tables(alloc, image, files, out),
    }
}

/// Carries out a command on a firmware without a board.
fn on_firmware<'a, F: Files, O: Sink>(
    alloc: Global,
    command: FirmwareCommand<'a>,
    files: &mut F,
    out: &mut O,
) -> Result<Done, Failure<'a>>
    requires { IsWithin (firmware_request command) }
    ensures { CarriesOut (Answer (firmware_request command.entry)) F.Files files.old files.new (firmware_request command.entry) (sink O.Sink out.old) (sink O.Sink out.new) result }
{
    match command {
        FirmwareCommand::Check { firmware } => check::check(alloc, firmware, files, out),
        FirmwareCommand::Why { firmware } => commanding::why(alloc, firmware, files, out),
        FirmwareCommand::Explain { firmware } => explaining::explain(alloc, firmware, files, out),
        FirmwareCommand::Source {
            firmware,
            policy,
            tape,
            steps,
        } => source::source(alloc, firmware, policy, tape, steps, files, out),
        FirmwareCommand::Where {
            firmware,
            policy,
            tape,
            steps,
        } => locating::locate(alloc, firmware, policy, tape, steps, files, out),
    }
}

/// Carries out a command on a firmware and a board.
fn on_plan<'a, F: Files, O: Sink>(
    alloc: Global,
    command: PlanCommand<'a>,
    files: &mut F,
    out: &mut O,
) -> Result<Done, Failure<'a>>
    requires { IsWithin (plan_request command) }
    ensures { CarriesOut (Answer (plan_request command.entry)) F.Files files.old files.new (plan_request command.entry) (sink O.Sink out.old) (sink O.Sink out.new) result }
{
    match command {
        PlanCommand::Compile {
            firmware,
            board,
            policy,
            image,
        } => compile::compile(alloc, firmware, board, policy, image, files),
        PlanCommand::List {
            firmware,
            board,
            policy,
        } => list::list(alloc, firmware, board, policy, files, out),
        PlanCommand::Stack {
            firmware,
            board,
            policy,
        } => stack::stack(alloc, firmware, board, policy, files, out),
        PlanCommand::Who {
            firmware,
            board,
            policy,
        } => owning::print_owners(alloc, firmware, board, policy, files, out),
        PlanCommand::Symbols {
            firmware,
            board,
            policy,
        } => symbolizing::symbols(alloc, firmware, board, policy, files, out),
        PlanCommand::Explain {
            firmware,
            board,
            policy,
        } => planned::explain_plan(alloc, firmware, board, policy, files, out),
    }
}
