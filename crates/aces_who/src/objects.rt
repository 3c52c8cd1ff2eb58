//! The lines of compartments, globals and peripherals.

ghost use Rattle.std.specs.Prelude.{◌≡◌, ◌++◌, OnOk, codes, position, nat_eq};
ghost use Rattle.std.specs.Fmt.{decimal};
ghost use Rattle.ir_model.specs.Resolved as resolved;
ghost use Rattle.ir_program.specs.Seen.{program_of};
ghost use Rattle.plan_report.specs.Subjects.{subject_of};
ghost use Rattle.aces_who.specs.WhoLines as lines;

use crate::reach::is_tied;
use crate::ties::Tie;
use ir_program::program::Program;
use plan_model::Policy;
use plan_model::groups::Groups;
use plan_report::naming::{file_name, global_name, periph_name};
use plan_report::subject::Subject;
use plan_report::text::Text;
use std::alloc::AllocError;

/// The first function of a compartment.
fn first_function(groups: &Groups, compartment: u32) -> Option<usize>
    ensures { result ≡ position (λ d. nat_eq d compartment) groups.now.of }
{
    groups
        .of
        .as_slice()
        .iter()
        .position(|other| *other == compartment)
}

/// The file of a function; 0 for an absent one.
fn file_of(program: &Program<'_>, func: usize) -> u32
    ensures { result ≡ resolved.file_of (program_of program.now) func }
{
    match program.files.as_slice().get(func) {
        Some(file) => *file,
        None => 0,
    }
}

/// Puts the name of the file of a compartment's first function.
fn put_first_file(
    text: &mut Text,
    subject: &Subject<'_>,
    compartment: u32,
) -> Result<(), AllocError>
    ensures { OnOk result (text.new ≡ text.old ++ lines.file_text_of (subject_of subject.now) (position (λ d. nat_eq d compartment) subject.now.graph.now.groups.of)) }
{
    match first_function(&subject.graph.groups, compartment) {
        Some(func) => {
            text.put(b" file ")?;
            text.put(file_name(subject.firmware, file_of(subject.program, func)))
        }
        None => Ok(()),
    }
}

/// Puts the name of a compartment's file, where compartments are made by files.
fn put_file(
    text: &mut Text,
    subject: &Subject<'_>,
    policy: Policy,
    compartment: u32,
) -> Result<(), AllocError>
    ensures { OnOk result (text.new ≡ text.old ++ lines.file_text (subject_of subject.now) policy compartment) }
{
    match policy {
        Policy::Filename => put_first_file(text, subject, compartment),
        Policy::Optimized | Policy::Peripheral => Ok(()),
    }
}

/// Puts the line of a compartment.
pub(crate) fn put_compartment(
    text: &mut Text,
    subject: &Subject<'_>,
    policy: Policy,
    compartment: u32,
) -> Result<(), AllocError>
    ensures { OnOk result (text.new ≡ text.old ++ lines.compartment_line (subject_of subject.now) policy compartment) }
{
    text.put(b"compartment ")?;
    text.put_decimal(u64::from(compartment))?;
    put_file(text, subject, policy, compartment)?;
    text.put(b"\n")
}

/// Puts a number behind a space.
fn put_number(text: &mut Text, number: u32) -> Result<(), AllocError>
    ensures { OnOk result (text.new ≡ text.old ++ (codes " " ++ decimal number)) }
{
    text.put(b" ")?;
    text.put_decimal(u64::from(number))
}

/// Puts the compartments that have a tie, each behind a space.
fn put_tied(text: &mut Text, subject: &Subject<'_>, tie: Tie) -> Result<(), AllocError>
    ensures { OnOk result (text.new ≡ text.old ++ lines.tied_text (subject_of subject.now) tie) }
{
    for compartment in 0..subject.graph.groups.count {
        if is_tied(subject, tie, compartment) {
            put_number(text, compartment)?;
        }
    }
    Ok(())
}

/// Puts the compartments that may read a global, on a closed board.
fn put_readers(text: &mut Text, subject: &Subject<'_>, global: u32) -> Result<(), AllocError>
    ensures { OnOk result (text.new ≡ text.old ++ lines.readers_text (subject_of subject.now) global) }
{
    if subject.board.closed {
        text.put(b" readers")?;
        return put_tied(text, subject, Tie::MayRead(global));
    }
    Ok(())
}

/// Puts the line of a global.
pub(crate) fn put_global(
    text: &mut Text,
    subject: &Subject<'_>,
    global: u32,
) -> Result<(), AllocError>
    ensures { OnOk result (text.new ≡ text.old ++ lines.global_line (subject_of subject.now) global) }
{
    text.put(b"global ")?;
    text.put(global_name(subject.firmware, global))?;
    text.put(b" writers")?;
    put_tied(text, subject, Tie::MayWrite(global))?;
    text.put(b" needs")?;
    put_tied(text, subject, Tie::Writes(global))?;
    put_readers(text, subject, global)?;
    text.put(b"\n")
}

/// Puts the line of a peripheral.
pub(crate) fn put_periph(
    text: &mut Text,
    subject: &Subject<'_>,
    periph: u32,
) -> Result<(), AllocError>
    ensures { OnOk result (text.new ≡ text.old ++ lines.periph_line (subject_of subject.now) periph) }
{
    text.put(b"periph ")?;
    text.put(periph_name(subject.firmware, periph as usize))?;
    text.put(b" users")?;
    put_tied(text, subject, Tie::MayUse(periph))?;
    text.put(b" needs")?;
    put_tied(text, subject, Tie::Uses(periph))?;
    text.put(b"\n")
}
