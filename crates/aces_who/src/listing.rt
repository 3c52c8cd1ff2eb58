//! All lines.

ghost use Rattle.std.specs.Prelude.{◌≡◌, ◌++◌, OnOk, IfOk};
ghost use Rattle.plan_report.specs.Subjects.{subject_of};
ghost use Rattle.aces_who.specs.WhoLines as lines;

use crate::calls::put_caller;
use crate::exposures::put_exposures;
use crate::objects::{put_compartment, put_global, put_periph};
use plan_model::Policy;
use plan_report::subject::Subject;
use plan_report::text::Text;
use std::alloc::{AllocError, Global};

/// How many things there are, as numbers are told.
///
/// # Errors
///
/// There are more than 32 bits tell, as in no firmware.
fn told_count(count: usize) -> Result<u32, AllocError>
    ensures { IfOk result (λ n. n ≡ count) }
{
    match u32::try_from(count) {
        Ok(count) => Ok(count),
        Err(_) => Err(AllocError),
    }
}

/// Puts the lines of all compartments.
#[tactic(auto, unfolding(crate::specs::WhoLines::all_compartment_lines))]
fn put_compartments(
    text: &mut Text,
    subject: &Subject<'_>,
    policy: Policy,
) -> Result<(), AllocError>
    ensures { OnOk result (text.new ≡ text.old ++ lines.all_compartment_lines (subject_of subject.now) policy) }
{
    for compartment in 0..subject.graph.groups.count {
        put_compartment(text, subject, policy, compartment)?;
    }
    Ok(())
}

/// Puts the lines of all globals.
#[tactic(auto, unfolding(crate::specs::WhoLines::all_global_lines))]
fn put_globals(text: &mut Text, subject: &Subject<'_>) -> Result<(), AllocError>
    ensures { OnOk result (text.new ≡ text.old ++ lines.all_global_lines (subject_of subject.now)) }
{
    for global in 0..told_count(subject.program.globals.len())? {
        put_global(text, subject, global)?;
    }
    Ok(())
}

/// Puts the lines of all peripherals.
#[tactic(auto, unfolding(crate::specs::WhoLines::all_periph_lines))]
fn put_periphs(text: &mut Text, subject: &Subject<'_>) -> Result<(), AllocError>
    ensures { OnOk result (text.new ≡ text.old ++ lines.all_periph_lines (subject_of subject.now)) }
{
    for periph in 0..told_count(subject.program.periphs.len())? {
        put_periph(text, subject, periph)?;
    }
    Ok(())
}

/// Puts the lines of what compartments reach without need.
#[tactic(auto, unfolding(crate::specs::WhoLines::all_exposure_lines))]
fn put_all_exposures(
    alloc: Global,
    text: &mut Text,
    subject: &Subject<'_>,
) -> Result<(), AllocError>
    ensures { OnOk result (text.new ≡ text.old ++ lines.all_exposure_lines (subject_of subject.now)) }
{
    for compartment in 0..subject.graph.groups.count {
        put_exposures(alloc, text, subject, compartment)?;
    }
    Ok(())
}

/// Puts the lines of all calls from compartment to compartment.
#[tactic(auto, unfolding(crate::specs::WhoLines::all_call_lines))]
fn put_calls(text: &mut Text, subject: &Subject<'_>) -> Result<(), AllocError>
    ensures { OnOk result (text.new ≡ text.old ++ lines.all_call_lines (subject_of subject.now)) }
{
    for caller in 0..told_count(subject.needs.funcs.len())? {
        put_caller(text, subject, caller)?;
    }
    Ok(())
}

fn put_all(
    alloc: Global,
    text: &mut Text,
    subject: &Subject<'_>,
    policy: Policy,
) -> Result<(), AllocError>
    ensures { OnOk result (text.new ≡ text.old ++ lines.who_lines (subject_of subject.now) policy) }
{
    put_compartments(text, subject, policy)?;
    put_globals(text, subject)?;
    put_periphs(text, subject)?;
    put_all_exposures(alloc, text, subject)?;
    put_calls(text, subject)
}

/// The lines of a firmware on a board, whose compartments are those of the policy.
///
/// # Errors
///
/// There is no memory for them. This is also the answer where there are more globals, peripherals or functions than a number of 32 bits
/// tells, or an address of a range has more than 32 bits: no firmware comes there.
pub fn who_lines(
    alloc: Global,
    subject: &Subject<'_>,
    policy: Policy,
) -> Result<Vec<u8>, AllocError>
    ensures { IfOk result (λ all. all.items ≡ lines.who_lines (subject_of subject.now) policy) }
{
    let mut text = Text::new(alloc);
    put_all(alloc, &mut text, subject, policy)?;
    Ok(text.into_bytes())
}
