//! The lines of the monitor's block: who runs, which calls wait, and what is lent.

ghost use Rattle.std.specs.Prelude.{◌≡◌, ◌+◌, ◌%◌, ◌<◌, ◌++◌, OnOk};
ghost use Rattle.aces_inspection.specs.MemoryLines as lines;

use crate::words_put::{put_number, put_word};
use machine_emulator::Machine;
use monitor_model::places::{self, LOANS_OFFSET};
use plan_report::text::Text;
use std::alloc::AllocError;

/// Where the running compartment stands in the block.
const CURRENT: u32 = 4 * places::CUR as u32;
/// Where the end of the open stack stands.
const TOP: u32 = 4 * places::TOP as u32;
/// Where the number of saved entries stands.
const DEPTH: u32 = 4 * places::DEPTH as u32;
/// Where the number of loans stands.
const LOAN_COUNT: u32 = 4 * places::LOANS as u32;
/// Where the first saved entry stands; each has 16 bytes.
const SAVED: u32 = 4 * places::SAVED_PSP as u32;
/// Where a saved entry has its compartment, from its first word, the stack pointer, on.
const SAVED_CURRENT: u32 = 4 * (places::SAVED_CUR as u32 - places::SAVED_PSP as u32);
/// Where it has the end of its open stack.
const SAVED_TOP: u32 = 4 * (places::SAVED_TOP as u32 - places::SAVED_PSP as u32);
/// Where it has its mark.
const SAVED_MARK: u32 = 4 * (places::SAVED_MARK as u32 - places::SAVED_PSP as u32);
/// Where a loan has its end, from its first address on.
const LOAN_END: u32 = 4 * places::LOAN_END as u32;
/// Where it has the number of the local.
const LOAN_NUMBER: u32 = 4 * places::LOAN_NUMBER as u32;
/// How many saved entries there are at most.
const MOST_SAVED: u32 = 8;
/// How many loans there are at most.
const MOST_LOANS: u32 = 32;

/// A word of the block.
fn block_word(machine: &Machine, block: u32, offset: u32) -> u32
    requires place { lines.IsBlockAt block }
    requires aligned { offset % 4 ≡ 0 }
    requires inside { offset < 1024 }
    ensures { result ≡ lines.block_word machine.now.image machine.now.state block offset }
{
    machine.word(block + offset)
}

/// Puts the number of saved entries and that of loans.
#[tactic(auto, unfolding(crate::specs::MemoryLines::counts_text))]
fn put_counts(text: &mut Text, machine: &Machine, block: u32) -> Result<(), AllocError>
    requires { lines.IsBlockAt block }
    ensures { OnOk result (text.new ≡ text.old ++ lines.counts_text machine.now.image machine.now.state block) }
{
    put_number(text, b" depth ", block_word(machine, block, DEPTH))?;
    put_number(text, b" loans ", block_word(machine, block, LOAN_COUNT))
}

/// Puts the line of the running compartment.
#[tactic(auto, unfolding(crate::specs::MemoryLines::compartment_line))]
fn put_compartment(text: &mut Text, machine: &Machine, block: u32) -> Result<(), AllocError>
    requires { lines.IsBlockAt block }
    ensures { OnOk result (text.new ≡ text.old ++ lines.compartment_line machine.now.image machine.now.state block) }
{
    put_number(text, b"compartment ", block_word(machine, block, CURRENT))?;
    put_word(text, b" top", block_word(machine, block, TOP))?;
    put_counts(text, machine, block)?;
    text.put(b"\n")
}

/// Puts what a saved entry says of a caller's stack.
#[tactic(auto, unfolding(crate::specs::MemoryLines::stack_text))]
fn put_stack(text: &mut Text, machine: &Machine, block: u32, number: u32) -> Result<(), AllocError>
    requires block { lines.IsBlockAt block }
    requires number { number < 8 }
    ensures { OnOk result (text.new ≡ text.old ++ lines.stack_text machine.now.image machine.now.state block number) }
{
    let saved = SAVED + 16 * number;
    put_word(text, b" psp", block_word(machine, block, saved))?;
    put_word(text, b" top", block_word(machine, block, saved + SAVED_TOP))
}

/// Puts what a saved entry says of a caller.
#[tactic(auto, unfolding(crate::specs::MemoryLines::caller_text))]
fn put_caller(text: &mut Text, machine: &Machine, block: u32, number: u32) -> Result<(), AllocError>
    requires block { lines.IsBlockAt block }
    requires number { number < 8 }
    ensures { OnOk result (text.new ≡ text.old ++ lines.caller_text machine.now.image machine.now.state block number) }
{
    let saved = SAVED + 16 * number;
    put_number(
        text,
        b" compartment ",
        block_word(machine, block, saved + SAVED_CURRENT),
    )?;
    put_stack(text, machine, block, number)?;
    put_number(
        text,
        b" mark ",
        block_word(machine, block, saved + SAVED_MARK),
    )
}

/// Puts the line of a saved entry.
#[tactic(auto, unfolding(crate::specs::MemoryLines::call_line))]
fn put_call(text: &mut Text, machine: &Machine, block: u32, number: u32) -> Result<(), AllocError>
    requires block { lines.IsBlockAt block }
    requires number { number < 8 }
    ensures { OnOk result (text.new ≡ text.old ++ lines.call_line machine.now.image machine.now.state block number) }
{
    put_number(text, b"call ", number)?;
    put_caller(text, machine, block, number)?;
    text.put(b"\n")
}

/// Puts the line of a loan.
#[tactic(auto, unfolding(crate::specs::MemoryLines::loan_line))]
fn put_loan(text: &mut Text, machine: &Machine, block: u32, number: u32) -> Result<(), AllocError>
    requires block { lines.IsBlockAt block }
    requires number { number < 32 }
    ensures { OnOk result (text.new ≡ text.old ++ lines.loan_line machine.now.image machine.now.state block number) }
{
    let loan = LOANS_OFFSET + 12 * number;
    put_number(text, b"loan ", number)?;
    put_word(text, b"", block_word(machine, block, loan))?;
    put_word(text, b"", block_word(machine, block, loan + LOAN_END))?;
    put_number(
        text,
        b" number ",
        block_word(machine, block, loan + LOAN_NUMBER),
    )?;
    text.put(b"\n")
}

/// Puts the lines of the saved entries, the last first.
#[tactic(auto, unfolding(crate::specs::MemoryLines::call_lines))]
fn put_calls(text: &mut Text, machine: &Machine, block: u32) -> Result<(), AllocError>
    requires { lines.IsBlockAt block }
    ensures { OnOk result (text.new ≡ text.old ++ lines.call_lines machine.now.image machine.now.state block) }
{
    let count = block_word(machine, block, DEPTH).min(MOST_SAVED);
    for i in 0..count {
        put_call(text, machine, block, count - 1 - i)?;
    }
    Ok(())
}

/// Puts the lines of the loans, the last first.
#[tactic(auto, unfolding(crate::specs::MemoryLines::loan_lines))]
fn put_loans(text: &mut Text, machine: &Machine, block: u32) -> Result<(), AllocError>
    requires { lines.IsBlockAt block }
    ensures { OnOk result (text.new ≡ text.old ++ lines.loan_lines machine.now.image machine.now.state block) }
{
    let count = block_word(machine, block, LOAN_COUNT).min(MOST_LOANS);
    for i in 0..count {
        put_loan(text, machine, block, count - 1 - i)?;
    }
    Ok(())
}

/// Puts the lines of the block, where the image has one.
#[tactic(auto, using(crate::proofs::Placed::block_place), unfolding(crate::specs::MemoryLines::block_lines))]
pub(crate) fn put_block(text: &mut Text, machine: &Machine) -> Result<(), AllocError>
    ensures { OnOk result (text.new ≡ text.old ++ lines.block_lines machine.now.image machine.now.state) }
{
    let block = machine.image().monitor;
    if block == 0 {
        return Ok(());
    }
    put_compartment(text, machine, block)?;
    put_calls(text, machine, block)?;
    put_loans(text, machine, block)
}
