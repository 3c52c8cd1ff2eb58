//! How a compartment stands to an object.

ghost use Rattle.std.specs.Prelude.{◌≡◌, ◌&&◌};
ghost use Rattle.std.specs.List.{list_any};
ghost use Rattle.ir_model.specs.Resolved.{window_at};
ghost use Rattle.ir_program.specs.Parts.{span_of};
ghost use Rattle.ir_program.specs.Seen.{program_of};
ghost use Rattle.plan_model.specs.declared.graph.DataRegion.{DataRegion as TheRegion};
ghost use Rattle.plan_model.specs.Lists.{has};
ghost use Rattle.plan_model.specs.Permission as permission;
ghost use Rattle.plan_model.specs.Regions.{is_user};
ghost use Rattle.plan_report.specs.Subjects.{subject_of};
ghost use Rattle.aces_who.specs.Exposed as exposed;
ghost use Rattle.aces_who.specs.Ties as ties;

use crate::ties::{Access, Tie};
use ir_model::object::ObjId;
use ir_program::program::{Program, Span};
use plan_graph::{reaches, uses, writes};
use plan_model::graph::{DataRegion, Final};
use plan_report::slots::{covers_of, is_covered, is_used, is_writer};
use plan_report::subject::Subject;

/// Whether a global lies in a data region.
fn has_global(region: &DataRegion, global: u32) -> bool
    ensures { result ≡ has region.now.globals global }
{
    region.globals.as_slice().contains(&global)
}

/// Whether a global lies in a data region that a compartment may write.
fn may_write(graph: &Final, compartment: u32, global: u32) -> bool
    ensures { result ≡ list_any (λ (r : TheRegion). has r.writers compartment && has r.globals global) graph.now.regions }
{
    graph.regions.as_slice().iter().any(|region| is_writer(region, compartment)
        && has_global(region, global))
}

/// Whether a global lies in a data region that a compartment uses.
fn may_read(graph: &Final, compartment: u32, global: u32) -> bool
    ensures { result ≡ list_any (λ (r : TheRegion). is_user compartment r && has r.globals global) graph.now.regions }
{
    graph.regions.as_slice().iter().any(|region| is_used(region, compartment)
        && has_global(region, global))
}

/// The window of a peripheral; empty for an absent one.
pub(crate) fn window_of(program: &Program<'_>, periph: u32) -> Span
    ensures { span_of result ≡ window_at (program_of program.now) periph }
{
    match program.periphs.as_slice().get(periph as usize) {
        Some(span) => *span,
        None => Span { base: 0, size: 0 },
    }
}

/// Whether a peripheral lies in a range of addresses of a compartment.
pub(crate) fn may_use(subject: &Subject<'_>, compartment: u32, periph: u32) -> bool
    ensures { result ≡ permission.is_covered (program_of subject.now.program.now) subject.now.graph.now compartment periph }
{
    let window = window_of(subject.program, periph);
    covers_of(subject.graph, compartment)
        .iter()
        .any(|cover| is_covered(&window, cover))
}

/// Whether a compartment has a tie.
#[tactic(auto, unfolding(plan_model::specs::Permission::may_write, plan_model::specs::Permission::may_read))]
pub fn is_tied(subject: &Subject<'_>, tie: Tie, compartment: u32) -> bool
    ensures { result ≡ ties.is_tied (subject_of subject.now) tie compartment }
{
    match tie {
        Tie::MayWrite(global) => may_write(subject.graph, compartment, global),
        Tie::MayRead(global) => may_read(subject.graph, compartment, global),
        Tie::Writes(global) => is_needed(subject, compartment, Access::Write, global),
        Tie::MayUse(periph) => may_use(subject, compartment, periph),
        Tie::Uses(periph) => uses(subject.needs, &subject.graph.groups, compartment, periph),
    }
}

/// Whether a function of a compartment writes a global, or, for loads, writes or reads it.
pub fn is_needed(subject: &Subject<'_>, compartment: u32, access: Access, global: u32) -> bool
    ensures { result ≡ exposed.is_needed (subject_of subject.now) compartment access global }
{
    let object = ObjId::Global(global);
    let groups = &subject.graph.groups;
    match access {
        Access::Write => writes(subject.needs, groups, compartment, &object),
        Access::Read => reaches(subject.needs, groups, compartment, &object),
    }
}

/// Whether a compartment may write a data region, or read it.
pub(crate) fn is_open(region: &DataRegion, compartment: u32, access: Access) -> bool
    ensures { result ≡ exposed.is_open compartment access region.now }
{
    match access {
        Access::Write => is_writer(region, compartment),
        Access::Read => is_used(region, compartment),
    }
}
