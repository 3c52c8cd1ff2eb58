//! The lines on a fault of a text.

ghost use Rattle.std.specs.Prelude.{◌≡◌, ◌++◌, IfOk, OnOk};
ghost use Rattle.aces_explain.specs.Explanations as lines;

use crate::excerpt::put_excerpt;
use crate::expected::put_expected;
use crate::fault_rules::{check_rule, excess_rule, syntax_rule, utf8_rule};
use crate::fault_texts::{put_kind, put_passed, put_place};
use ir_model::check::{CheckKind, CheckPlace};
use ir_model::token::{Excess, Pos};
use plan_report::text::Text;
use std::alloc::{AllocError, Global};

/// Puts a file's name, and a line and a column of it.
fn put_position(text: &mut Text, name: &[u8], pos: Pos) -> Result<(), AllocError>
    ensures { OnOk result (text.new ≡ text.old ++ lines.position_text name.now pos) }
{
    text.put(name)?;
    text.put(b":")?;
    text.put_decimal(u64::from(pos.line))?;
    text.put(b":")?;
    text.put_decimal(u64::from(pos.col))?;
    text.put(b": ")
}

/// Puts the line of a rule.
fn put_rule(text: &mut Text, rule: &[u8]) -> Result<(), AllocError>
    ensures { OnOk result (text.new ≡ text.old ++ lines.rule_line rule.now) }
{
    text.put(b"rule ")?;
    text.put(rule)?;
    text.put(b"\n")
}

/// Puts the line of syntax.
fn put_syntax_line(text: &mut Text, name: &[u8], pos: Pos) -> Result<(), AllocError>
    ensures { OnOk result (text.new ≡ text.old ++ lines.syntax_line name.now pos) }
{
    put_position(text, name, pos)?;
    text.put(b"syntax\n")
}

/// Puts the line of what a token passes.
fn put_passed_line(text: &mut Text, name: &[u8], excess: Excess, pos: Pos) -> Result<(), AllocError>
    ensures { OnOk result (text.new ≡ text.old ++ lines.passed_line name.now excess pos) }
{
    put_position(text, name, pos)?;
    put_passed(text, excess)?;
    text.put(b"\n")
}

/// Puts which check fails, and where.
fn put_failing(text: &mut Text, kind: &CheckKind, place: &CheckPlace) -> Result<(), AllocError>
    ensures { OnOk result (text.new ≡ text.old ++ lines.failing_text (record { kind = kind.now; place = place.now })) }
{
    put_kind(text, kind)?;
    text.put(b" in ")?;
    put_place(text, place)
}

/// Puts the line of a check that fails.
fn put_check_line(
    text: &mut Text,
    name: &[u8],
    kind: &CheckKind,
    place: &CheckPlace,
    pos: Pos,
) -> Result<(), AllocError>
    ensures { OnOk result (text.new ≡ text.old ++ lines.check_line name.now (record { kind = kind.now; place = place.now }) pos) }
{
    put_position(text, name, pos)?;
    put_failing(text, kind, place)?;
    text.put(b"\n")
}

/// The lines on bytes that are not UTF-8 from this one on, of a file of this name.
///
/// # Errors
///
/// There is no memory for them.
pub fn utf8_told(alloc: Global, name: &[u8], at: u32) -> Result<Vec<u8>, AllocError>
    ensures { IfOk result (λ v. v.items ≡ lines.utf8_told name.now at) }
{
    let mut text = Text::new(alloc);
    text.put(name)?;
    text.put(b": byte ")?;
    text.put_decimal(u64::from(at))?;
    text.put(b": not UTF-8\n")?;
    put_rule(&mut text, utf8_rule())?;
    Ok(text.into_bytes())
}

/// The lines on bytes with which no text goes on there, behind the lines of what was found and expected.
///
/// # Errors
///
/// There is no memory for them.
pub fn syntax_told(
    alloc: Global,
    name: &[u8],
    bytes: &[u8],
    pos: Pos,
    details: &[u8],
) -> Result<Vec<u8>, AllocError>
    ensures { IfOk result (λ v. v.items ≡ lines.syntax_told name.now bytes.now pos details.now) }
{
    let mut text = Text::new(alloc);
    put_syntax_line(&mut text, name, pos)?;
    put_excerpt(&mut text, bytes, pos)?;
    text.put(details)?;
    put_rule(&mut text, syntax_rule())?;
    Ok(text.into_bytes())
}

/// The lines on a token that passes this there.
///
/// # Errors
///
/// There is no memory for them.
pub fn passed_told(
    alloc: Global,
    name: &[u8],
    bytes: &[u8],
    excess: Excess,
    pos: Pos,
) -> Result<Vec<u8>, AllocError>
    ensures { IfOk result (λ v. v.items ≡ lines.passed_told name.now bytes.now excess pos) }
{
    let mut text = Text::new(alloc);
    put_passed_line(&mut text, name, excess, pos)?;
    put_excerpt(&mut text, bytes, pos)?;
    put_expected(&mut text, excess)?;
    put_rule(&mut text, excess_rule(excess))?;
    Ok(text.into_bytes())
}

/// The lines on a check that fails at an item that begins there, with the lines of what was found and expected.
///
/// # Errors
///
/// There is no memory for them.
pub fn check_told(
    alloc: Global,
    name: &[u8],
    bytes: &[u8],
    kind: &CheckKind,
    place: &CheckPlace,
    pos: Pos,
    details: &[u8],
) -> Result<Vec<u8>, AllocError>
    ensures { IfOk result (λ v. v.items ≡ lines.check_told name.now bytes.now (record { kind = kind.now; place = place.now }) pos details.now) }
{
    let mut text = Text::new(alloc);
    put_check_line(&mut text, name, kind, place, pos)?;
    put_excerpt(&mut text, bytes, pos)?;
    text.put(details)?;
    put_rule(&mut text, check_rule(kind, place))?;
    Ok(text.into_bytes())
}
