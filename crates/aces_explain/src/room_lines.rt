//! Lines that are told of several things.

ghost use Rattle.std.specs.Prelude.{◌≡◌, ◌++◌, OnOk};
ghost use Rattle.aces_reports.specs.FaultLines.{compartment_word, bytes_text};
ghost use Rattle.aces_explain.specs.Explanations.{rule_line};
ghost use Rattle.aces_explain.specs.PlanTold as told;

use aces_reports::memory_word;
use plan_layout::refusal::Lack;
use plan_report::text::Text;
use std::alloc::AllocError;

/// Puts the line on a rule.
pub(crate) fn put_rule(text: &mut Text, rule: &[u8]) -> Result<(), AllocError>
    ensures { OnOk result (text.new ≡ text.old ++ rule_line rule.now) }
{
    text.put(b"rule ")?;
    text.put(rule)?;
    text.put(b"\n")
}

/// Puts a compartment, or `-` where there is none.
fn put_compartment(text: &mut Text, compartment: Option<u32>) -> Result<(), AllocError>
    ensures { OnOk result (text.new ≡ text.old ++ compartment_word compartment) }
{
    match compartment {
        None => text.put(b"-"),
        Some(compartment) => text.put_decimal(u64::from(compartment)),
    }
}

/// Puts how many bytes are needed, and how many there are.
fn put_bytes(text: &mut Text, needed: u64, available: u64) -> Result<(), AllocError>
    ensures { OnOk result (text.new ≡ text.old ++ bytes_text needed available) }
{
    text.put(b": needs ")?;
    text.put_decimal(needed)?;
    text.put(b" of ")?;
    text.put_decimal(available)?;
    text.put(b" bytes\n")
}

/// Puts the line on a memory that has no room.
pub(crate) fn put_room(text: &mut Text, lack: Lack) -> Result<(), AllocError>
    ensures { OnOk result (text.new ≡ text.old ++ told.room_line lack) }
{
    text.put(memory_word(lack.memory))?;
    text.put(b": compartment ")?;
    put_compartment(text, lack.compartment)?;
    put_bytes(text, lack.needed, lack.available)
}
