//! How many bytes a compartment may reach by its regions though none of its functions does.

ghost use Rattle.std.specs.Prelude.{◌≡◌, ◌++◌, ◌+◌, OnOk, IfOk};
ghost use Rattle.plan_model.specs.Exposure as exposure;
ghost use Rattle.plan_model.specs.Regions as regions;
ghost use Rattle.ir_program.specs.Seen.{program_of};
ghost use Rattle.plan_report.specs.CompartmentLines as lines;
ghost use Rattle.plan_report.specs.Subjects.{subject_of};

use crate::slots::{is_used, is_writer};
use crate::subject::Subject;
use crate::text::Text;
use ir_model::object::ObjId;
use ir_program::program::Program;
use plan_graph::{reaches, writes};
use plan_model::graph::DataRegion;
use std::alloc::AllocError;

/// The bytes of a global; 0 for an absent one.
pub fn global_size(program: &Program<'_>, global: u32) -> u32
    ensures { result ≡ regions.global_size (program_of program.now) global }
{
    match program.globals.as_slice().get(global as usize) {
        Some(variable) => variable.storage.size,
        None => 0,
    }
}

/// Adds two numbers of bytes.
///
/// # Errors
///
/// The sum has more than 64 bits, as in no firmware.
pub(crate) fn sum(a: u64, b: u64) -> Result<u64, AllocError>
    ensures { IfOk result (λ n. n ≡ a + b) }
{
    match a.checked_add(b) {
        Some(sum) => Ok(sum),
        None => Err(AllocError),
    }
}

/// The bytes of a region's globals that no function of a compartment writes.
fn unwritten_bytes(
    subject: &Subject<'_>,
    compartment: u32,
    region: &DataRegion,
) -> Result<u64, AllocError>
    ensures { IfOk result (λ n. n ≡ regions.size_of (program_of subject.now.program.now) (exposure.never_written subject.now.needs.now subject.now.graph.now.groups compartment region.now)) }
{
    let mut bytes = 0u64;
    let globals = region.globals.as_slice();
    for i in 0..globals.len() {
        let global = globals[i];
        let object = ObjId::Global(global);
        if !writes(subject.needs, &subject.graph.groups, compartment, &object) {
            bytes = sum(bytes, u64::from(global_size(subject.program, global)))?;
        }
    }
    Ok(bytes)
}

/// The bytes of a region's globals that no function of a compartment writes or reads.
fn unreached_bytes(
    subject: &Subject<'_>,
    compartment: u32,
    region: &DataRegion,
) -> Result<u64, AllocError>
    ensures { IfOk result (λ n. n ≡ regions.size_of (program_of subject.now.program.now) (exposure.never_reached subject.now.needs.now subject.now.graph.now.groups compartment region.now)) }
{
    let mut bytes = 0u64;
    let globals = region.globals.as_slice();
    for i in 0..globals.len() {
        let global = globals[i];
        let object = ObjId::Global(global);
        if !reaches(subject.needs, &subject.graph.groups, compartment, &object) {
            bytes = sum(bytes, u64::from(global_size(subject.program, global)))?;
        }
    }
    Ok(bytes)
}

/// The bytes that a compartment may write by its regions though none of its functions does.
fn exposed_to_writes(subject: &Subject<'_>, compartment: u32) -> Result<u64, AllocError>
    ensures { IfOk result (λ n. n ≡ exposure.exposed_to_writes (program_of subject.now.program.now) subject.now.needs.now subject.now.graph.now.groups subject.now.graph.now.regions compartment) }
{
    let mut bytes = 0u64;
    let regions = subject.graph.regions.as_slice();
    for i in 0..regions.len() {
        let region = &regions[i];
        if is_writer(region, compartment) {
            bytes = sum(bytes, unwritten_bytes(subject, compartment, region)?)?;
        }
    }
    Ok(bytes)
}

/// The bytes that a compartment may read by its regions though none of its functions writes or reads them.
fn exposed_to_reads(subject: &Subject<'_>, compartment: u32) -> Result<u64, AllocError>
    ensures { IfOk result (λ n. n ≡ exposure.exposed_to_reads (program_of subject.now.program.now) subject.now.needs.now subject.now.graph.now.groups subject.now.graph.now.regions compartment) }
{
    let mut bytes = 0u64;
    let regions = subject.graph.regions.as_slice();
    for i in 0..regions.len() {
        let region = &regions[i];
        if is_used(region, compartment) {
            bytes = sum(bytes, unreached_bytes(subject, compartment, region)?)?;
        }
    }
    Ok(bytes)
}

/// Puts how many bytes are exposed to reads, on a closed board.
fn put_reads(text: &mut Text, subject: &Subject<'_>, compartment: u32) -> Result<(), AllocError>
    ensures { OnOk result (text.new ≡ text.old ++ lines.read_exposure (subject_of subject.now) compartment) }
{
    if subject.board.closed {
        text.put(b" read ")?;
        return text.put_decimal(exposed_to_reads(subject, compartment)?);
    }
    Ok(())
}

/// Puts the line of the bytes that are exposed to a compartment.
#[tactic(auto, unfolding(crate::specs::CompartmentLines::exposed_line))]
pub(crate) fn put_exposed(
    text: &mut Text,
    subject: &Subject<'_>,
    compartment: u32,
) -> Result<(), AllocError>
    ensures { OnOk result (text.new ≡ text.old ++ lines.exposed_line (subject_of subject.now) compartment) }
{
    text.put(b"exposed ")?;
    text.put_decimal(exposed_to_writes(subject, compartment)?)?;
    put_reads(text, subject, compartment)?;
    text.put(b"\n")
}
