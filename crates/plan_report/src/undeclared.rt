//! The addresses in a compartment's ranges of peripherals that no peripheral declares.

ghost use Rattle.std.specs.Prelude.{◌≡◌, ◌++◌, ◌+◌, ◌-◌, ◌≤◌, ◌<◌, ℕ, OnOk, flat_map, map, true, ◌∷◌, []};
ghost use Rattle.ir_program.specs.Parts.{span_of};
ghost use Rattle.plan_report.specs.CompartmentLines as lines;
ghost use Rattle.plan_report.specs.Subjects.{subject_of};
ghost use Rattle.plan_report.specs.Undeclared as undeclared;

use crate::slots::{cover_at, covers_of};
use crate::subject::Subject;
use crate::text::Text;
use ir_program::program::Span;
use plan_model::graph::Cover;
use std::alloc::AllocError;

/// The first address behind a window.
fn end_of(span: &Span) -> u64
    ensures { result ≡ span.now.base + span.now.size }
{
    u64::from(span.base) + u64::from(span.size)
}

/// The first address from `at` on that a window has, or `end` where it has none before that.
fn first_in(span: &Span, at: u64, end: u64) -> u64
    requires { at ≤ end }
    ensures { result ≡ at + undeclared.undeclared_from (span_of span.now ∷ []) at (end - at) }
{
    let first = at.max(u64::from(span.base));
    if first < end && first < end_of(span) {
        first
    } else {
        end
    }
}

/// The first address from `at` on that a declared peripheral has, or `end` where none has one before that.
fn first_declared(spans: &[Span], at: u64, end: u64) -> u64
    requires { at ≤ end }
    ensures { result ≡ at + undeclared.undeclared_from (map span_of spans.now) at (end - at) }
{
    let mut first = end;
    for i in 0..spans.len() {
        first = first_in(&spans[i], at, first);
    }
    first
}

/// Whether a window has an address.
fn has(span: &Span, address: u64) -> bool
    ensures { result ≡ undeclared.is_among span.now.base span.now.size address }
{
    u64::from(span.base) <= address && address < end_of(span)
}

/// The first address behind a window that has this one, or this one where none has it.
fn behind(spans: &[Span], address: u64) -> u64
    ensures within { (a : ℕ) → address ≤ a → a < result → undeclared.is_declared (map span_of spans.now) a ≡ true }
    ensures further { undeclared.is_declared (map span_of spans.now) address ≡ true → address < result }
    ensures least { address ≤ result }
{
    for i in 0..spans.len() {
        if has(&spans[i], address) {
            return end_of(&spans[i]);
        }
    }
    address
}

/// Puts the line of the addresses from one up to another, behind these words.
fn put_range(text: &mut Text, words: &[u8], from: u64, to: u64) -> Result<(), AllocError>
    requires { from ≤ to }
    ensures { OnOk result (text.new ≡ text.old ++ lines.undeclared_line words.now (record { base = from; size = to - from })) }
{
    let Ok(base) = u32::try_from(from) else {
        return Err(AllocError);
    };
    text.put(words)?;
    text.put_range(base, to - from)?;
    text.put(b"\n")
}

/// Puts the lines of the addresses of a cover that no peripheral declares.
fn put_ranges(
    text: &mut Text,
    words: &[u8],
    spans: &[Span],
    cover: &Cover,
) -> Result<(), AllocError>
    ensures { OnOk result (text.new ≡ text.old ++ flat_map (lines.undeclared_line words.now) (undeclared.undeclared_ranges (map span_of spans.now) cover.now)) }
{
    let end = u64::from(cover.base) + u64::from(cover.size);
    let mut at = u64::from(cover.base);
    while at < end {
        let first = first_declared(spans, at, end);
        if at < first {
            put_range(text, words, at, first)?;
        }
        at = behind(spans, first);
    }
    Ok(())
}

/// Puts the lines of the addresses of a compartment's covers that no peripheral declares, each behind these words.
///
/// # Errors
///
/// There is no memory for them. This is also the answer where an address has more than 32 bits: no firmware comes there.
#[tactic(auto, unfolding(crate::specs::CompartmentLines::undeclared_lines))]
pub fn put_undeclared(
    text: &mut Text,
    subject: &Subject<'_>,
    compartment: u32,
    words: &[u8],
) -> Result<(), AllocError>
    ensures { OnOk result (text.new ≡ text.old ++ lines.undeclared_lines (subject_of subject.now) compartment words.now) }
{
    let spans = subject.program.periphs.as_slice();
    let covers = covers_of(subject.graph, compartment);
    for i in 0..covers.len() {
        put_ranges(text, words, spans, &cover_at(covers, i))?;
    }
    Ok(())
}
