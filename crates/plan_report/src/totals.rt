//! What is used of the memories, and how many calls cross.

ghost use Rattle.std.specs.Prelude.{◌≡◌, ◌++◌, OnOk, IfOk, length, filter};
ghost use Rattle.plan_model.specs.Crossing as crossing;
ghost use Rattle.plan_model.specs.Placement as placement;
ghost use Rattle.plan_report.specs.Listing as listing;
ghost use Rattle.plan_report.specs.Subjects.{subject_of};

use crate::exposure::sum;
use crate::subject::Subject;
use crate::text::Text;
use plan_crossings::crosses;
use plan_model::groups::Groups;
use plan_model::needs::SiteNeed;
use plan_model::plan::{Plan, Spot};
use std::alloc::AllocError;

/// The crossing sites among some calls, and all targets of these.
#[derive(Clone, Copy)]
struct Counts {
    sites: u64,
    targets: u64,
}

/// How many crossing sites there are among calls, and how many targets these have together.
///
/// # Errors
///
/// The sum has more than 64 bits, as in no firmware.
fn counted(groups: &Groups, calls: &[SiteNeed]) -> Result<Counts, AllocError>
    ensures sites { IfOk result (λ c. c.sites ≡ length (filter (crossing.crosses groups.now) calls.now)) }
    ensures targets { IfOk result (λ c. c.targets ≡ crossing.target_count (filter (crossing.crosses groups.now) calls.now)) }
{
    let mut counts = Counts {
        sites: 0,
        targets: 0,
    };
    for i in 0..calls.len() {
        let site = &calls[i];
        if crosses(groups, site) {
            counts.sites = sum(counts.sites, 1)?;
            counts.targets = sum(counts.targets, site.targets.len() as u64)?;
        }
    }
    Ok(counts)
}

/// Puts the line of the crossing sites and their targets.
#[tactic(auto, unfolding(crate::specs::Listing::sites_line))]
pub(crate) fn put_sites(text: &mut Text, subject: &Subject<'_>) -> Result<(), AllocError>
    ensures { OnOk result (text.new ≡ text.old ++ listing.sites_line (subject_of subject.now)) }
{
    let counts = counted(&subject.graph.groups, subject.needs.sites.as_slice())?;
    text.put(b"sites ")?;
    text.put_decimal(counts.sites)?;
    text.put(b" targets ")?;
    text.put_decimal(counts.targets)?;
    text.put(b"\n")
}

/// The blocks of flash together.
fn flash_used(plan: &Plan) -> Result<u64, AllocError>
    ensures { IfOk result (λ n. n ≡ placement.flash_used plan.now) }
{
    let mut bytes = u64::from(plan.tables.size);
    let spots = plan.code.as_slice();
    for i in 0..spots.len() {
        bytes = sum(bytes, u64::from(spots[i].size))?;
    }
    Ok(bytes)
}

/// The first address behind a block.
fn end_of(spot: Spot) -> u64
    ensures { result ≡ listing.end_of spot }
{
    u64::from(spot.base) + u64::from(spot.size)
}

/// The first address behind all blocks of RAM.
fn ram_end(plan: &Plan) -> u64
    ensures { result ≡ listing.ram_end plan.now }
{
    let mut end = end_of(plan.stack).max(end_of(plan.monitor));
    if let Some(spot) = plan.unwritten {
        end = end.max(end_of(spot));
    }
    let spots = plan.regions.as_slice();
    for i in 0..spots.len() {
        end = end.max(end_of(spots[i]));
    }
    end
}

/// Puts the line of a memory.
fn put_memory(text: &mut Text, word: &[u8], used: u64, size: u32) -> Result<(), AllocError>
    ensures { OnOk result (text.new ≡ text.old ++ listing.memory_line word.now used size) }
{
    text.put(word)?;
    text.put_decimal(used)?;
    text.put(b" of ")?;
    text.put_decimal(u64::from(size))?;
    text.put(b"\n")
}

/// Puts the lines of what is used of flash and of RAM.
#[tactic(auto, unfolding(crate::specs::Listing::memory_lines))]
pub(crate) fn put_memories(text: &mut Text, subject: &Subject<'_>) -> Result<(), AllocError>
    ensures { OnOk result (text.new ≡ text.old ++ listing.memory_lines (subject_of subject.now)) }
{
    let flash = flash_used(subject.plan)?;
    let ram = ram_end(subject.plan).saturating_sub(u64::from(subject.board.ram_base));
    put_memory(text, b"flash ", flash, subject.board.flash_size)?;
    put_memory(text, b"ram ", ram, subject.board.ram_size)
}
