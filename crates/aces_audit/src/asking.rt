//! What both commands do: an image is loaded and checked, and what is asked of it is printed.

ghost use Rattle.std.specs.Prelude.{◌≡◌, Ok, IfOk, IfErr};
ghost use Rattle.machine_devices.specs.Rules.{ObeysRules};
ghost use Rattle.aces_reports.specs.Ends.{status_of};
ghost use Rattle.base_outside.specs.Sinks.{sink};
ghost use Rattle.aces_files.specs.CarriesOut.{CarriesOut};
ghost use Rattle.aces_files.specs.Contents.{IsNoImage};
ghost use Rattle.aces_files.specs.Loads.{IsContentFailure};
ghost use Rattle.aces_files.specs.Tellings.{told_outcome};
ghost use Rattle.aces_audit.specs.AnswerLine.{answer_status};
ghost use Rattle.aces_audit.specs.Answers.{ImageAnswer, audit_text, tables_text};
ghost use Rattle.aces_audit.specs.Asking.{IsToldOf, text_of, request_of, AnswerToAsked};

use crate::answer_text::answer_line;
use crate::laws::sound_images_are_guarded;
use crate::table_lines;
use aces_files::loading::{image_of, load};
use aces_files::telling::{CommandOutput, print};
use aces_reports::{Done, Failure};
use base_outside::{Files, Sink};
use machine_devices::image::Image;
use monitor_audit::{Audit, Audited, audit, audited_tables};
use std::alloc::{AllocError, Global};

/// What is printed of an image.
#[derive(Clone, Copy)]
pub(crate) enum Asked {
    /// The answer of `audit`.
    Answer,
    /// What its tables say, where it passes the checks, and else that answer.
    Tables,
}

/// How the command ends with an answer.
fn done_by(answer: &Audit) -> Done
    ensures { status_of (Ok result) ≡ answer_status answer.now }
{
    match answer {
        Audit::Yes { .. } => Done::Completed,
        Audit::No { .. } => Done::Negative,
    }
}

/// The answer of `audit` to an image.
fn answer_output(alloc: Global, image: &Image) -> Result<CommandOutput, AllocError>
    requires { ObeysRules image.now }
    ensures { IfOk result (λ told. IsToldOf audit_text image.now (told_outcome told)) }
{
    sound_images_are_guarded();
    let answer = audit(alloc, image)?;
    let lines = answer_line(alloc, &answer)?;
    Ok(CommandOutput {
        lines,
        done: done_by(&answer),
    })
}

/// What the tables of an image say, where it passes the checks, and else the answer of `audit`.
fn tables_output(alloc: Global, image: &Image) -> Result<CommandOutput, AllocError>
    requires { ObeysRules image.now }
    ensures { IfOk result (λ told. IsToldOf tables_text image.now (told_outcome told)) }
{
    sound_images_are_guarded();
    match audited_tables(alloc, image)? {
        Audited::Sound(tables) => Ok(CommandOutput {
            lines: table_lines(alloc, image, &tables)?,
            done: Done::Completed,
        }),
        Audited::Unsound(failed) => Ok(CommandOutput {
            lines: answer_line(
                alloc,
                &Audit::No {
                    check: failed.check,
                    at: failed.at,
                },
            )?,
            done: Done::Negative,
        }),
    }
}

/// What is asked of an image.
fn asked_output(alloc: Global, image: &Image, asked: Asked) -> Result<CommandOutput, AllocError>
    requires { ObeysRules image.now }
    ensures { IfOk result (λ told. IsToldOf (text_of asked) image.now (told_outcome told)) }
{
    match asked {
        Asked::Answer => answer_output(alloc, image),
        Asked::Tables => tables_output(alloc, image),
    }
}

/// What is asked of an image, by its bytes, which stand behind its name. No file is touched.
fn output_by_bytes<'a>(
    alloc: Global,
    image: &'a str,
    bytes: &[u8],
    asked: Asked,
) -> Result<CommandOutput, Failure<'a>>
    ensures ok { IfOk result (λ told. ImageAnswer (text_of asked) image.now bytes.now (told_outcome told)) }
    ensures err { IfErr result (λ e. IsContentFailure (IsNoImage bytes.now) image.now e) }
{
    let read = image_of(alloc, image, bytes)?;
    let told = asked_output(alloc, &read, asked)?;
    Ok(told)
}

/// Loads an image, and prints what is asked of it.
pub(crate) fn print_asked<'a, F: Files, O: Sink>(
    alloc: Global,
    image: &'a str,
    asked: Asked,
    files: &mut F,
    out: &mut O,
) -> Result<Done, Failure<'a>>
    ensures { CarriesOut (AnswerToAsked asked image.now) F.Files files.old files.new (request_of asked image.now) (sink O.Sink out.old) (sink O.Sink out.new) result }
{
    let bytes = load(alloc, files, image)?;
    let told = output_by_bytes(alloc, image, bytes.as_slice(), asked)?;
    print(told.lines.as_slice(), told.done, out)
}
