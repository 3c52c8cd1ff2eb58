//! The lines of what compartments reach without need.

ghost use Rattle.std.specs.Prelude.{◌≡◌, ◌++◌, ◌&&◌, IfOk, OnOk, codes, flat_map, not};
ghost use Rattle.std.specs.Fmt.{decimal};
ghost use Rattle.ir_program.specs.Seen.{program_of};
ghost use Rattle.plan_model.specs.Groups as sets;
ghost use Rattle.plan_model.specs.Permission as permission;
ghost use Rattle.plan_report.specs.Subjects.{subject_of};
ghost use Rattle.aces_who.specs.Exposed as exposed;
ghost use Rattle.aces_who.specs.WhoLines as lines;

use crate::reach::{is_needed, is_open, may_use, window_of};
use crate::ties::Access;
use plan_graph::uses;
use plan_model::graph::DataRegion;
use plan_report::exposure::global_size;
use plan_report::naming::{global_name, periph_name};
use plan_report::subject::Subject;
use plan_report::text::Text;
use plan_report::undeclared::put_undeclared;
use std::alloc::{AllocError, Global};

/// The word of a line of a global that is exposed.
fn exposed_word(access: Access) -> &'static [u8]
    ensures { result.now ≡ lines.exposed_word access }
{
    match access {
        Access::Write => b"exposed ",
        Access::Read => b"exposed-read ",
    }
}

/// Puts the line of a global that is exposed.
fn put_global(
    text: &mut Text,
    subject: &Subject<'_>,
    compartment: u32,
    access: Access,
    global: u32,
) -> Result<(), AllocError>
    ensures { OnOk result (text.new ≡ text.old ++ lines.exposed_global_line (subject_of subject.now) compartment access global) }
{
    text.put(exposed_word(access))?;
    text.put_decimal(u64::from(compartment))?;
    text.put(b" global ")?;
    text.put(global_name(subject.firmware, global))?;
    text.put(b" ")?;
    text.put_decimal(u64::from(global_size(subject.program, global)))?;
    text.put(b"\n")
}

/// Puts the lines of the globals of a data region that no function of a compartment needs.
fn put_unneeded(
    text: &mut Text,
    subject: &Subject<'_>,
    compartment: u32,
    access: Access,
    region: &DataRegion,
) -> Result<(), AllocError>
    ensures { OnOk result (text.new ≡ text.old ++ flat_map (lines.exposed_global_line (subject_of subject.now) compartment access) (exposed.unneeded (subject_of subject.now) compartment access region.now)) }
{
    let globals = region.globals.as_slice();
    for i in 0..globals.len() {
        let global = globals[i];
        if !is_needed(subject, compartment, access, global) {
            put_global(text, subject, compartment, access, global)?;
        }
    }
    Ok(())
}

/// Puts the lines of the globals of a compartment's data regions that none of its functions needs.
#[tactic(auto, unfolding(crate::specs::WhoLines::exposed_global_lines))]
fn put_globals(
    text: &mut Text,
    subject: &Subject<'_>,
    compartment: u32,
    access: Access,
) -> Result<(), AllocError>
    ensures { OnOk result (text.new ≡ text.old ++ lines.exposed_global_lines (subject_of subject.now) compartment access) }
{
    let regions = subject.graph.regions.as_slice();
    for i in 0..regions.len() {
        let region = &regions[i];
        if is_open(region, compartment, access) {
            put_unneeded(text, subject, compartment, access, region)?;
        }
    }
    Ok(())
}

/// Puts the lines of the globals that are exposed to loads, on a closed board.
#[tactic(auto, unfolding(crate::specs::WhoLines::exposed_read_lines))]
fn put_reads(text: &mut Text, subject: &Subject<'_>, compartment: u32) -> Result<(), AllocError>
    ensures { OnOk result (text.new ≡ text.old ++ lines.exposed_read_lines (subject_of subject.now) compartment) }
{
    if subject.board.closed {
        return put_globals(text, subject, compartment, Access::Read);
    }
    Ok(())
}

/// Puts the line of a peripheral that is exposed.
fn put_periph(
    text: &mut Text,
    subject: &Subject<'_>,
    compartment: u32,
    periph: u32,
) -> Result<(), AllocError>
    ensures { OnOk result (text.new ≡ text.old ++ lines.exposed_periph_line (subject_of subject.now) compartment periph) }
{
    text.put(b"exposed ")?;
    text.put_decimal(u64::from(compartment))?;
    text.put(b" periph ")?;
    text.put(periph_name(subject.firmware, periph as usize))?;
    text.put(b" ")?;
    text.put_decimal(u64::from(window_of(subject.program, periph).size))?;
    text.put(b"\n")
}

/// Whether a peripheral lies in a range of a compartment though none of its functions uses it.
fn is_unused(subject: &Subject<'_>, compartment: u32, periph: u32) -> bool
    ensures { result ≡ (permission.is_covered (program_of subject.now.program.now) subject.now.graph.now compartment periph && not (sets.uses subject.now.needs.now subject.now.graph.now.groups compartment periph)) }
{
    may_use(subject, compartment, periph)
        && !uses(subject.needs, &subject.graph.groups, compartment, periph)
}

/// Puts the lines of the peripherals in a compartment's ranges that none of its functions uses.
#[tactic(auto, unfolding(crate::specs::WhoLines::exposed_periph_lines))]
fn put_periphs(text: &mut Text, subject: &Subject<'_>, compartment: u32) -> Result<(), AllocError>
    ensures { OnOk result (text.new ≡ text.old ++ lines.exposed_periph_lines (subject_of subject.now) compartment) }
{
    let Ok(count) = u32::try_from(subject.program.periphs.len()) else {
        return Err(AllocError);
    };
    for periph in 0..count {
        if is_unused(subject, compartment, periph) {
            put_periph(text, subject, compartment, periph)?;
        }
    }
    Ok(())
}

/// The words before a range of undeclared addresses.
fn undeclared_words(alloc: Global, compartment: u32) -> Result<Vec<u8>, AllocError>
    ensures { IfOk result (λ words. words.items ≡ codes "undeclared " ++ decimal compartment) }
{
    let mut words = Text::new(alloc);
    words.put(b"undeclared ")?;
    words.put_decimal(u64::from(compartment))?;
    Ok(words.into_bytes())
}

/// Puts the lines of what a compartment reaches without need.
pub(crate) fn put_exposures(
    alloc: Global,
    text: &mut Text,
    subject: &Subject<'_>,
    compartment: u32,
) -> Result<(), AllocError>
    ensures { OnOk result (text.new ≡ text.old ++ lines.exposure_lines (subject_of subject.now) compartment) }
{
    let words = undeclared_words(alloc, compartment)?;
    put_globals(text, subject, compartment, Access::Write)?;
    put_reads(text, subject, compartment)?;
    put_periphs(text, subject, compartment)?;
    put_undeclared(text, subject, compartment, words.as_slice())
}
