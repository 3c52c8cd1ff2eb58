//! The lines of a compartment.

ghost use Rattle.std.specs.Prelude.{◌≡◌, ◌++◌, OnOk, nat_eq};
ghost use Rattle.plan_model.specs.Groups as groups_of;
ghost use Rattle.plan_model.specs.Placement as placement;
ghost use Rattle.plan_report.specs.CompartmentLines as lines;
ghost use Rattle.plan_report.specs.Subjects.{subject_of};

use crate::exposure::put_exposed;
use crate::lent::put_lent_lines;
use crate::naming::put_func;
use crate::slots::put_slots;
use crate::subject::Subject;
use crate::text::Text;
use crate::undeclared::put_undeclared;
use plan_crossings::compartment_of;
use plan_model::groups::Groups;
use plan_model::plan::{Plan, Spot};
use std::alloc::{AllocError, Global};

/// The block of a compartment's code.
fn code_spot(plan: &Plan, compartment: u32) -> Spot
    ensures { result ≡ placement.compartment_spot plan.now compartment }
{
    match plan.code.as_slice().get(compartment as usize) {
        Some(spot) => *spot,
        None => Spot { base: 0, size: 0 },
    }
}

/// Puts the line of a compartment's code.
fn put_code(text: &mut Text, subject: &Subject<'_>, compartment: u32) -> Result<(), AllocError>
    ensures { OnOk result (text.new ≡ text.old ++ lines.code_line (subject_of subject.now) compartment) }
{
    let spot = code_spot(subject.plan, compartment);
    text.put(b"compartment ")?;
    text.put_decimal(u64::from(compartment))?;
    text.put(b" code")?;
    text.put_range(spot.base, u64::from(spot.size))?;
    text.put(b"\n")
}

/// Puts the line of a function.
fn put_function(text: &mut Text, subject: &Subject<'_>, func: u32) -> Result<(), AllocError>
    ensures { OnOk result (text.new ≡ text.old ++ lines.function_line (subject_of subject.now) func) }
{
    text.put(b"function ")?;
    put_func(text, subject.firmware, func)?;
    text.put(b"\n")
}

/// Whether a function stands in a compartment.
fn stands_in(groups: &Groups, func: u32, compartment: u32) -> bool
    ensures { result ≡ nat_eq (groups_of.compartment_of groups.now func) compartment }
{
    compartment_of(groups, func) == compartment
}

/// Puts the lines of a compartment's functions.
#[tactic(auto, unfolding(crate::specs::CompartmentLines::function_lines))]
fn put_functions(text: &mut Text, subject: &Subject<'_>, compartment: u32) -> Result<(), AllocError>
    ensures { OnOk result (text.new ≡ text.old ++ lines.function_lines (subject_of subject.now) compartment) }
{
    let groups = &subject.graph.groups;
    let Ok(count) = u32::try_from(groups.of.len()) else {
        return Err(AllocError);
    };
    for func in 0..count {
        if stands_in(groups, func, compartment) {
            put_function(text, subject, func)?;
        }
    }
    Ok(())
}

/// Puts the lines of a compartment.
pub(crate) fn put_compartment(
    alloc: Global,
    text: &mut Text,
    subject: &Subject<'_>,
    compartment: u32,
) -> Result<(), AllocError>
    ensures { OnOk result (text.new ≡ text.old ++ lines.compartment_lines (subject_of subject.now) compartment) }
{
    put_code(text, subject, compartment)?;
    put_functions(text, subject, compartment)?;
    put_slots(alloc, text, subject, compartment)?;
    put_lent_lines(text, subject, compartment)?;
    put_exposed(text, subject, compartment)?;
    put_undeclared(text, subject, compartment, b"undeclared")
}
