//! The bytes of the vectors, the monitor and its tables. An answer is `None` if a number takes more than 32 bits.

ghost use Rattle.std.specs.Prelude.{◌≡◌, ◌+◌, ◌*◌, ◌≤◌, length, IfSome};
ghost use Rattle.ir_program.specs.Seen.{program_of};
ghost use Rattle.plan_model.specs.TableSize as table_size;
ghost use Rattle.plan_crossings.specs.Seen.{seen_sites};
ghost use Rattle.plan_sizes.specs.Parts.{region_words, block_count, record_bytes};

use crate::regions::words_in;
use ir_program::program::Program;
use plan_crossings::target_count;
use plan_model::graph::Final;
use plan_model::needs::SiteNeed;

/// How many words fill the data regions.
fn region_words(program: &Program, fin: &Final) -> Option<u32>
    ensures { IfSome result (λ n. n ≡ region_words (program_of program.now) fin.now.regions) }
{
    let mut total: u32 = 0;
    for region in fin.regions.as_slice() {
        total = total.checked_add(words_in(program, region.globals.as_slice())?)?;
    }
    Some(total)
}

/// How many words fill all blocks.
fn initial_words(program: &Program, fin: &Final) -> Option<u32>
    ensures { IfSome result (λ n. n ≡ table_size.initial_words (program_of program.now) fin.now) }
{
    let words = region_words(program, fin)?;
    let others = words_in(program, fin.unwritten.as_slice())?;
    let total = words.checked_add(others)?;
    Some(total)
}

/// The sum of some bytes and of `count` times `each` bytes.
fn behind(bytes: u32, each: u32, count: usize) -> Option<u32>
    ensures { IfSome result (λ n. n ≡ bytes + each * count) }
{
    let Ok(count) = u32::try_from(count) else {
        return None;
    };
    count.checked_mul(each)?.checked_add(bytes)
}

/// How many blocks start-up fills.
fn block_count(fin: &Final) -> Option<usize>
    ensures { IfSome result (λ n. n ≡ block_count fin.now) }
{
    let regions = fin.regions.len();
    if fin.unwritten.is_empty() {
        Some(regions)
    } else {
        regions.checked_add(1)
    }
}

/// The bytes of the vectors, the monitor, and the tables' counts and records of compartments, sites and targets.
fn record_bytes(fin: &Final, sites: &[&SiteNeed], slots: u32) -> Option<u32>
    requires { slots ≤ 12 }
    ensures { IfSome result (λ n. n ≡ record_bytes fin.now (seen_sites sites.now) slots) }
{
    let head = behind(4096 + 32, 8 * slots + 16, fin.groups.count as usize)?;
    let listed = behind(head, 12, sites.len())?;
    behind(listed, 8, target_count(sites)?)
}

/// The bytes of the vectors, the monitor and its tables, by the crossing sites and the locals that are lent.
pub(crate) fn table_bytes(
    program: &Program,
    fin: &Final,
    sites: &[&SiteNeed],
    lent: &[(u32, u32)],
    slots: u32,
) -> Option<u32>
    requires { slots ≤ 12 }
    ensures { IfSome result (λ n. n ≡ record_bytes fin.now (seen_sites sites.now) slots + 4 * length lent.now + 12 * block_count fin.now + 4 * table_size.initial_words (program_of program.now) fin.now) }
{
    let records = record_bytes(fin, sites, slots)?;
    let lends = behind(records, 4, lent.len())?;
    let blocks = behind(lends, 12, block_count(fin)?)?;
    behind(blocks, 4, initial_words(program, fin)? as usize)
}
