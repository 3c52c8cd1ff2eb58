//! The rules that a firmware without a plan breaks.

ghost use Rattle.std.specs.Prelude.{◌≡◌, ◌++◌, OnOk};
ghost use Rattle.aces_explain.specs.Explanations.{rule_line};
ghost use Rattle.aces_explain.specs.PlanRules as rules;
ghost use Rattle.aces_explain.specs.PlanTold as told;

use crate::room_lines::put_rule;
use aces_reports::compiled_word;
use plan_denials::Asked;
use plan_model::limits::{COMPARTMENT_LIMIT, LENT_LIMIT, LimitKind, SITE_LIMIT, TARGET_LIMIT};
use plan_model::plan::Lowest;
use plan_report::text::Text;
use std::alloc::AllocError;

/// The greatest number that a limit of what is compiled allows.
fn limit_of(which: LimitKind) -> u64
    ensures { result ≡ rules.limit_of which }
{
    match which {
        LimitKind::Compartments => u64::from(COMPARTMENT_LIMIT),
        LimitKind::Lent => LENT_LIMIT as u64,
        LimitKind::Sites => SITE_LIMIT as u64,
        LimitKind::Targets => TARGET_LIMIT as u64,
    }
}

/// The rule of a limit of what is compiled.
fn limit_rule(which: LimitKind) -> &'static [u8]
    ensures { result.now ≡ rules.limit_rule which }
{
    match which {
        LimitKind::Compartments => b"at most 64 compartments",
        LimitKind::Lent => {
            b"with two compartments or more, at most 32 locals that another function may write or, on a board with closed reads, read, or whose function can reach itself by calls"
        }
        LimitKind::Sites => b"at most 4096 calls that may go to another compartment",
        LimitKind::Targets => {
            b"at most 64 functions to which one call that may go to another compartment may go, its own compartment's too"
        }
    }
}

/// Puts a number and the greatest that it may be.
fn put_count(text: &mut Text, count: u32, most: u64) -> Result<(), AllocError>
    ensures { OnOk result (text.new ≡ text.old ++ told.count_text count most) }
{
    text.put(b" ")?;
    text.put_decimal(u64::from(count))?;
    text.put(b" of ")?;
    text.put_decimal(most)?;
    text.put(b"\n")
}

/// Puts what is told of a limit that is passed.
pub(crate) fn put_limit(text: &mut Text, which: LimitKind, count: u32) -> Result<(), AllocError>
    ensures { OnOk result (text.new ≡ text.old ++ told.limit_told which count) }
{
    text.put(b"limit ")?;
    text.put(compiled_word(which))?;
    put_count(text, count, limit_of(which))?;
    put_rule(text, limit_rule(which))
}

/// The rule of what a board denies.
pub(crate) fn denied_rule(asked: Asked) -> &'static [u8]
    ensures { result.now ≡ rules.denied_rule asked }
{
    match asked {
        Asked::Window(_) => {
            b"a declared peripheral, used or not, has no address that the board denies"
        }
        Asked::Range { .. } => {
            b"a range by which a compartment reaches its peripherals, and what lies between those that were joined, has no address that the board denies"
        }
    }
}

/// Puts the line on the rule of blocks of flash.
pub(crate) fn put_flash_rule(text: &mut Text) -> Result<(), AllocError>
    ensures { OnOk result (text.new ≡ text.old ++ rule_line rules.flash_rule) }
{
    put_rule(
        text,
        b"a block has the least power of two of bytes, at least 32, that holds it, and that of the tables at least as many as any other; together they have at most the bytes of flash",
    )
}

/// What the rule of blocks of RAM adds, by the block that stands lowest.
fn lowest_rule(lowest: Lowest) -> &'static [u8]
    ensures { result.now ≡ rules.lowest_rule lowest }
{
    match lowest {
        Lowest::Largest => b"",
        Lowest::Stack => {
            b"; the stack stands first, and behind it, up to as many bytes as the largest block has, is the first tail"
        }
    }
}

/// Puts the line on a rule that is told by two texts.
fn put_rules(text: &mut Text, first: &[u8], second: &[u8]) -> Result<(), AllocError>
    ensures { OnOk result (text.new ≡ text.old ++ rule_line (first.now ++ second.now)) }
{
    text.put(b"rule ")?;
    text.put(first)?;
    text.put(second)?;
    text.put(b"\n")
}

/// Puts the line on the rule of blocks of RAM.
pub(crate) fn put_ram_rule(text: &mut Text, lowest: Lowest) -> Result<(), AllocError>
    ensures { OnOk result (text.new ≡ text.old ++ rule_line (rules.ram_rule lowest)) }
{
    put_rules(
        text,
        b"a block has the least power of two of bytes, at least 32, that holds it; each stands behind the one before, but globals stand in the first tail that takes their block at a multiple of its size, a tail being the eighths without a byte at the end of a block of globals of 256 bytes or more",
        lowest_rule(lowest),
    )
}
