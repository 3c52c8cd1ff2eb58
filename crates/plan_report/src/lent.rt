//! The locals that are lent to a compartment.

ghost use Rattle.std.specs.Prelude.{◌≡◌, ◌++◌, OnOk, flat_map, codes, nat_eq, get_or};
ghost use Rattle.std.specs.Int.{bit_at};
ghost use Rattle.ir_model.specs.declared.object.ObjId.TheVariants.{Local as TheLocal};
ghost use Rattle.plan_model.specs.Groups as sets;
ghost use Rattle.plan_report.specs.CompartmentLines as lines;
ghost use Rattle.plan_report.specs.Subjects.{subject_of};

use crate::naming::{put_func, put_local};
use crate::subject::Subject;
use crate::text::Text;
use ir_model::object::ObjId;
use plan_graph::writes;
use std::alloc::AllocError;

/// Puts the line of a lent local.
fn put_lent(
    text: &mut Text,
    subject: &Subject<'_>,
    word: &[u8],
    local: (u32, u32),
) -> Result<(), AllocError>
    ensures { OnOk result (text.new ≡ text.old ++ lines.lent_line (subject_of subject.now) word.now local) }
{
    let (func, number) = local;
    text.put(word)?;
    put_func(text, subject.firmware, func)?;
    text.put(b".")?;
    put_local(text, subject.firmware, func, number)?;
    text.put(b"\n")
}

/// Whether a compartment's functions may write a local.
fn may_write(subject: &Subject<'_>, compartment: u32, local: (u32, u32)) -> bool
    ensures { result ≡ sets.writes subject.now.needs.now subject.now.graph.now.groups compartment (TheLocal local.0 local.1) }
{
    let (func, number) = local;
    let object = ObjId::Local {
        func,
        local: number,
    };
    writes(subject.needs, &subject.graph.groups, compartment, &object)
}

/// Puts the lines of the locals that a compartment's functions may write.
fn put_written(text: &mut Text, subject: &Subject<'_>, compartment: u32) -> Result<(), AllocError>
    ensures { OnOk result (text.new ≡ text.old ++ flat_map (lines.lent_line (subject_of subject.now) (codes "lend ")) (lines.written_locals (subject_of subject.now) compartment)) }
{
    let locals = subject.needs.lendable.as_slice();
    for i in 0..locals.len() {
        let local = local_at(locals, i);
        if may_write(subject, compartment, local) {
            put_lent(text, subject, b"lend ", local)?;
        }
    }
    Ok(())
}

/// Whether a bit is set in a mask of 32.
fn is_set(mask: u32, bit: usize) -> bool
    ensures { result ≡ nat_eq (bit_at mask bit) 1 }
{
    bit < 32 && (mask >> bit) & 1 == 1
}

/// The mask of a compartment in a list of them.
fn mask_of(masks: &[u32], compartment: u32) -> u32
    ensures { result ≡ get_or masks.now compartment 0 }
{
    match masks.get(compartment as usize) {
        Some(mask) => *mask,
        None => 0,
    }
}

/// Whether a compartment may read a lendable local and may not write it, by its masks.
fn is_read_alone(subject: &Subject<'_>, compartment: u32, number: usize) -> bool
    ensures { result ≡ lines.is_read_alone (subject_of subject.now) compartment number }
{
    let reads = mask_of(subject.graph.reads.as_slice(), compartment);
    let writes = mask_of(subject.graph.masks.as_slice(), compartment);
    is_set(reads, number) && !is_set(writes, number)
}

/// A lendable local, by its number among them.
fn local_at(locals: &[(u32, u32)], number: usize) -> (u32, u32)
    ensures { result ≡ get_or locals.now number (0, 0) }
{
    match locals.get(number) {
        Some(local) => *local,
        None => (0, 0),
    }
}

/// Puts the lines of the locals that a compartment may read by its masks and may not write.
fn put_read(text: &mut Text, subject: &Subject<'_>, compartment: u32) -> Result<(), AllocError>
    ensures { OnOk result (text.new ≡ text.old ++ flat_map (lines.lent_line (subject_of subject.now) (codes "lend-read ")) (lines.read_locals (subject_of subject.now) compartment)) }
{
    let locals = subject.needs.lendable.as_slice();
    for i in 0..locals.len() {
        if is_read_alone(subject, compartment, i) {
            put_lent(text, subject, b"lend-read ", local_at(locals, i))?;
        }
    }
    Ok(())
}

/// Puts the lines of the locals that are lent to a compartment.
#[tactic(auto, unfolding(crate::specs::CompartmentLines::lent_lines))]
pub(crate) fn put_lent_lines(
    text: &mut Text,
    subject: &Subject<'_>,
    compartment: u32,
) -> Result<(), AllocError>
    ensures { OnOk result (text.new ≡ text.old ++ lines.lent_lines (subject_of subject.now) compartment) }
{
    put_written(text, subject, compartment)?;
    if subject.board.closed {
        return put_read(text, subject, compartment);
    }
    Ok(())
}
