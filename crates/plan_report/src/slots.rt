//! The slots of the protection unit that a compartment has.

ghost use Rattle.std.specs.Prelude.{◌≡◌, ◌++◌, ◌<◌, ◌^◌, OnOk, IfOk, length, map, get_or, []};
ghost use Rattle.plan_model.specs.Regions.{regions_used, is_user, region_at};
ghost use Rattle.plan_model.specs.Lists.{has};
ghost use Rattle.plan_model.specs.Placement as placement;
ghost use Rattle.plan_model.specs.Covers.{is_inside};
ghost use Rattle.plan_model.specs.Covers as all_covers;
ghost use Rattle.plan_model.specs.InitialGraph as initial;
ghost use Rattle.ir_program.specs.Seen.{program_of};
ghost use Rattle.plan_report.specs.Names.{spaced, periph_name};
ghost use Rattle.plan_report.specs.CompartmentLines as lines;
ghost use Rattle.plan_report.specs.Subjects.{subject_of};
ghost use Rattle.ir_model.specs.Plain.{firmware_of};

use crate::naming::{put_globals, put_periph};
use crate::subject::Subject;
use crate::text::Text;
use ir_program::program::{Program, Span};
use plan_model::graph::{Cover, DataRegion, Final};
use plan_model::plan::{Plan, Spot};
use std::alloc::{AllocError, Global};

/// The first slot of a compartment.
const FIRST_SLOT: u64 = 4;

/// The block of a region.
fn region_spot(plan: &Plan, region: u32) -> Spot
    ensures { result ≡ placement.region_spot plan.now region }
{
    match plan.regions.as_slice().get(region as usize) {
        Some(spot) => *spot,
        None => Spot { base: 0, size: 0 },
    }
}

/// Whether a compartment may write a region.
pub fn is_writer(region: &DataRegion, compartment: u32) -> bool
    ensures { result ≡ has region.now.writers compartment }
{
    region.writers.as_slice().contains(&compartment)
}

/// Whether a compartment uses a region.
pub fn is_used(region: &DataRegion, compartment: u32) -> bool
    ensures { result ≡ is_user compartment region.now }
{
    is_writer(region, compartment) || region.readers.as_slice().contains(&compartment)
}

/// Whether a compartment uses the region of a number.
fn is_used_at(regions: &[DataRegion], region: u32, compartment: u32) -> bool
    requires { region < length regions.now }
    ensures { result ≡ is_user compartment (region_at regions.now region) }
{
    is_used(&regions[region as usize], compartment)
}

/// The data regions of a compartment, by their numbers.
fn used_regions(
    alloc: Global,
    regions: &[DataRegion],
    compartment: u32,
) -> Result<Vec<u32>, AllocError>
    ensures { IfOk result (λ used. used.items ≡ regions_used regions.now compartment) }
{
    let Ok(count) = u32::try_from(regions.len()) else {
        return Err(AllocError);
    };
    let mut used = Vec::new(alloc);
    for region in 0..count {
        if is_used_at(regions, region, compartment) {
            used.push(region)?;
        }
    }
    Ok(used)
}

/// What a slot is to a compartment that may write the region, or may only read it.
fn region_word(region: &DataRegion, compartment: u32) -> &'static [u8]
    ensures { result.now ≡ lines.word_of region.now compartment }
{
    if is_writer(region, compartment) {
        b" data"
    } else {
        b" read"
    }
}

/// Puts the line of a data region in its slot.
fn put_region(
    text: &mut Text,
    subject: &Subject<'_>,
    compartment: u32,
    slot: u64,
    region: u32,
) -> Result<(), AllocError>
    requires { region < length subject.now.graph.now.regions }
    ensures { OnOk result (text.new ≡ text.old ++ lines.region_line (subject_of subject.now) compartment slot region) }
{
    let spot = region_spot(subject.plan, region);
    let reached = &subject.graph.regions.as_slice()[region as usize];
    text.put(b"slot ")?;
    text.put_decimal(slot)?;
    text.put(region_word(reached, compartment))?;
    text.put_range(spot.base, u64::from(spot.size))?;
    put_globals(text, subject.firmware, reached.globals.as_slice())?;
    text.put(b"\n")
}

/// Puts the lines of the data regions of a compartment.
#[tactic(auto, unfolding(crate::specs::CompartmentLines::region_lines))]
fn put_regions(
    text: &mut Text,
    subject: &Subject<'_>,
    compartment: u32,
    used: &[u32],
) -> Result<(), AllocError>
    requires { used.now ≡ regions_used subject.now.graph.now.regions compartment }
    ensures { OnOk result (text.new ≡ text.old ++ lines.region_lines (subject_of subject.now) compartment used.now) }
{
    for i in 0..used.len() {
        put_region(text, subject, compartment, FIRST_SLOT + i as u64, used[i])?;
    }
    Ok(())
}

/// Whether a peripheral's window lies inside a cover.
fn holds_periph(program: &Program<'_>, periph: usize, cover: &Cover) -> bool
    requires { periph < length program.now.periphs }
    ensures { result ≡ is_inside (initial.cover_of (program_of program.now) periph) cover.now }
{
    is_covered(&program.periphs.as_slice()[periph], cover)
}

/// Whether a window lies inside a cover.
pub fn is_covered(span: &Span, cover: &Cover) -> bool
    ensures { result ≡ is_inside (record { base = span.now.base; size = span.now.size }) cover.now }
{
    let base = u64::from(span.base);
    let end = base + u64::from(span.size);
    let from = u64::from(cover.base);
    from <= base && end <= from + u64::from(cover.size)
}

/// Puts the names of the peripherals inside a cover, each behind a space.
fn put_periphs(text: &mut Text, subject: &Subject<'_>, cover: &Cover) -> Result<(), AllocError>
    ensures { OnOk result (text.new ≡ text.old ++ spaced (map (periph_name (firmware_of subject.now.firmware.now)) (lines.periphs_inside (subject_of subject.now) cover.now))) }
{
    for i in 0..subject.program.periphs.len() {
        if holds_periph(subject.program, i, cover) {
            put_periph(text, subject.firmware, i)?;
        }
    }
    Ok(())
}

/// Puts the line of a cover in its slot.
fn put_cover(
    text: &mut Text,
    subject: &Subject<'_>,
    slot: u64,
    cover: &Cover,
) -> Result<(), AllocError>
    ensures { OnOk result (text.new ≡ text.old ++ lines.cover_line (subject_of subject.now) slot cover.now) }
{
    text.put(b"slot ")?;
    text.put_decimal(slot)?;
    text.put(b" periph")?;
    text.put_range(cover.base, u64::from(cover.size))?;
    put_periphs(text, subject, cover)?;
    text.put(b"\n")
}

/// A cover, by its place among others.
pub fn cover_at(covers: &[Cover], place: usize) -> Cover
    ensures { result ≡ all_covers.cover_at covers.now place }
{
    match covers.get(place) {
        Some(cover) => *cover,
        None => Cover { base: 0, size: 0 },
    }
}

/// The covers of a compartment, in order of their bases; none for an absent one.
pub fn covers_of(graph: &Final, compartment: u32) -> &[Cover]
    ensures { result.now ≡ get_or graph.now.covers compartment [] }
{
    match graph.covers.as_slice().get(compartment as usize) {
        Some(covers) => covers.as_slice(),
        None => &[],
    }
}

/// Puts the lines of the covers of a compartment, from a slot on.
#[tactic(auto, unfolding(crate::specs::CompartmentLines::cover_lines))]
fn put_covers(
    text: &mut Text,
    subject: &Subject<'_>,
    compartment: u32,
    first: u64,
) -> Result<(), AllocError>
    requires { first < 2 ^ 62 }
    ensures { OnOk result (text.new ≡ text.old ++ lines.cover_lines (subject_of subject.now) compartment first (lines.covers (subject_of subject.now) compartment)) }
{
    let covers = covers_of(subject.graph, compartment);
    for i in 0..covers.len() {
        put_cover(text, subject, first + i as u64, &cover_at(covers, i))?;
    }
    Ok(())
}

/// Puts the lines of a compartment's slots: its data regions in order, then its covers.
#[tactic(auto, unfolding(crate::specs::CompartmentLines::slot_lines))]
pub(crate) fn put_slots(
    alloc: Global,
    text: &mut Text,
    subject: &Subject<'_>,
    compartment: u32,
) -> Result<(), AllocError>
    ensures { OnOk result (text.new ≡ text.old ++ lines.slot_lines (subject_of subject.now) compartment) }
{
    let used = used_regions(alloc, subject.graph.regions.as_slice(), compartment)?;
    put_regions(text, subject, compartment, used.as_slice())?;
    put_covers(text, subject, compartment, FIRST_SLOT + used.len() as u64)
}
