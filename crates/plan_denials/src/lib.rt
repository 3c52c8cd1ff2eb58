//! The first range of addresses that a firmware asks for and its board denies.
#![tactic(auto)]

ghost use Rattle.std.specs.Prelude.{◌≡◌};
ghost use Rattle.ir_model.specs.Resolved as resolved;
ghost use Rattle.ir_program.specs.Parts.{span_of};
ghost use Rattle.ir_program.specs.Seen.{program_of};
ghost use Rattle.plan_denials.specs.Meetings as meetings;

use ir_program::program::{Program, Span};
use plan_model::graph::{Cover, Final};
use plan_model::{Denied, first_met};

/// A range of addresses that a firmware asks for.
#[derive(Clone, Copy)]
pub enum Asked {
    /// The window of the declared peripheral of this number.
    Window(usize),
    /// A range by which a compartment reaches its peripherals.
    Range {
        /// The compartment.
        compartment: u32,
        /// The range.
        cover: Cover,
    },
}

/// A range that a firmware asks for has an address in common with one that its board denies.
#[derive(Clone, Copy)]
pub struct Meeting {
    /// What is asked for.
    pub asked: Asked,
    /// The number of the first denied range that it meets.
    pub denied: usize,
}

/// The window of a peripheral.
fn window_at(program: &Program, periph: usize) -> Span
    ensures { span_of result ≡ resolved.window_at (program_of program.now) periph }
{
    match program.periphs.as_slice().get(periph) {
        Some(span) => *span,
        None => Span { base: 0, size: 0 },
    }
}

/// The denied range that the window of a peripheral meets.
fn window_meeting(ranges: &[Denied], program: &Program, periph: usize) -> Option<Meeting>
    ensures { result ≡ meetings.window_meeting ranges.now (program_of program.now) periph }
{
    let window = window_at(program, periph);
    let denied = first_met(ranges, window.base, window.size)?;
    Some(Meeting {
        asked: Asked::Window(periph),
        denied,
    })
}

/// The first declared peripheral whose window meets a denied range.
fn windows_meeting(ranges: &[Denied], program: &Program) -> Option<Meeting>
    ensures { result ≡ meetings.windows_meeting ranges.now (program_of program.now) }
{
    for periph in 0..program.periphs.len() {
        if let Some(meeting) = window_meeting(ranges, program, periph) {
            return Some(meeting);
        }
    }
    None
}

/// The denied range that a range of a compartment meets.
fn cover_meeting(ranges: &[Denied], compartment: u32, cover: Cover) -> Option<Meeting>
    ensures { result ≡ meetings.cover_meeting ranges.now compartment cover }
{
    let denied = first_met(ranges, cover.base, cover.size)?;
    Some(Meeting {
        asked: Asked::Range { compartment, cover },
        denied,
    })
}

/// The first of some ranges of a compartment that meets a denied one.
fn covers_meeting(ranges: &[Denied], compartment: u32, covers: &[Cover]) -> Option<Meeting>
    ensures { result ≡ meetings.covers_meeting ranges.now compartment covers.now }
{
    for cover in covers {
        if let Some(meeting) = cover_meeting(ranges, compartment, *cover) {
            return Some(meeting);
        }
    }
    None
}

/// The first range of a compartment that meets a denied one.
#[tactic(auto, unfolding(crate::specs::Meetings::covers_meeting))]
fn compartment_meeting(ranges: &[Denied], graph: &Final, compartment: u32) -> Option<Meeting>
    ensures { result ≡ meetings.compartment_meeting ranges.now graph.now compartment }
{
    match graph.covers.as_slice().get(compartment as usize) {
        Some(covers) => covers_meeting(ranges, compartment, covers.as_slice()),
        None => None,
    }
}

/// The first range of all compartments that meets a denied one.
fn compartments_meeting(ranges: &[Denied], graph: &Final) -> Option<Meeting>
    ensures { result ≡ meetings.compartments_meeting ranges.now graph.now }
{
    for compartment in 0..graph.groups.count {
        if let Some(meeting) = compartment_meeting(ranges, graph, compartment) {
            return Some(meeting);
        }
    }
    None
}

/// The first range that a firmware asks for and its board denies: the windows of declared peripherals in their order, used or not, then
/// the ranges of each compartment in theirs. Takes no memory.
pub fn first_meeting(ranges: &[Denied], program: &Program, graph: &Final) -> Option<Meeting>
    ensures { result ≡ meetings.first_meeting ranges.now (program_of program.now) graph.now }
{
    match windows_meeting(ranges, program) {
        Some(meeting) => Some(meeting),
        None => compartments_meeting(ranges, graph),
    }
}
