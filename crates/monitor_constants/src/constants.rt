//! What the lists take of the tables, counted and added up.

ghost use Rattle.std.specs.Prelude.{◌≡◌, ◌+◌, ◌-◌, ◌*◌, ◌<◌, ◌≤◌, ◌^◌, min};
ghost use Rattle.base_words.specs.Arithmetic.{word};
ghost use Rattle.machine_protection.specs.declared.words.Rights.TheVariants.{Code, Stack};
ghost use Rattle.machine_protection.specs.RegionWords as words;
ghost use Rattle.monitor_model.specs.Records as records;
ghost use Rattle.monitor_model.specs.Layout as layout;
ghost use Rattle.monitor_program.specs.Constants.{constants_with, background_of, region_words};
ghost use Rattle.monitor_lists.specs.Made.{constants_of};
ghost use Rattle.monitor_constants.specs.Sizes.{most};

use crate::sizes::{block_of, greatest_code, word_count};
use machine_protection::region::Region;
use monitor_lists::Numbers;
use monitor_lists::values::{INIT_SIZE, TARGET_SIZE};
use monitor_model::Tables;
use monitor_model::places::LOANS_OFFSET;

/// The bytes of the monitor's block.
const BLOCK_SIZE: u32 = 1024;

/// The bytes of the vector words and the monitor's code.
const PAGE_SIZE: u32 = 4096;
/// The bytes of the eight words behind them: the five counts, the stack's base and size, and the monitor's block.
const HEAD_SIZE: u32 = 32;
/// The bytes of a compartment's record without its slots: both words of region 2, and both masks.
const RECORD_SIZE: u32 = 16;
/// The bytes of a slot in it: both words of its region.
const SLOT_SIZE: u32 = 8;
/// The bytes of a site's record.
const SITE_SIZE: u32 = 12;
/// The bytes of the size of a lendable local.
const LEND_SIZE: u32 = 4;
/// The bytes of an initial word.
const WORD_SIZE: u32 = 4;

/// The number of slots of each compartment; 4 where there is no compartment.
pub fn number_of_slots(t: &Tables) -> usize
    ensures { result ≡ records.number_of_slots t.now }
{
    match t.comps.as_slice().first() {
        Some(compartment) => compartment.slots.len(),
        None => 4,
    }
}

/// The address behind so many records of a size, modulo 2^32.
fn behind(at: u32, size: u32, count: usize) -> u32
    ensures { result ≡ word (at + size * count) }
{
    at.wrapping_add(size.wrapping_mul((count % 0x1_0000_0000) as u32))
}

/// The bytes of a number of things of this size, or as many as fit 64 bits.
fn bytes_of(size: u64, count: usize) -> u64
    ensures { result ≡ min (size * count) most }
{
    size.saturating_mul(count as u64)
}

/// The bytes of the tables with their initial words, or as many as fit 64 bits.
fn area_size(t: &Tables) -> u64
    ensures { result ≡ min (layout.area_end t.now - t.now.base) most }
{
    let compartment = bytes_of(SLOT_SIZE as u64, number_of_slots(t)).saturating_add(
        RECORD_SIZE as u64,
    );
    bytes_of(compartment, t.comps.len())
        .saturating_add(bytes_of(SITE_SIZE as u64, t.sites.len()))
        .saturating_add(bytes_of(TARGET_SIZE as u64, t.targets.len()))
        .saturating_add(bytes_of(LEND_SIZE as u64, t.lends.len()))
        .saturating_add(bytes_of(INIT_SIZE as u64, t.inits.len()))
        .saturating_add(word_count(t.inits.as_slice()).saturating_mul(WORD_SIZE as u64))
        .saturating_add((PAGE_SIZE + HEAD_SIZE) as u64)
}

/// The bytes of the tables' block, at most 2^32.
fn tables_size(t: &Tables) -> u64
    ensures exact { result ≡ layout.tables_size t.now }
    ensures small { result ≤ 2 ^ 32 }
{
    block_of(area_size(t)).max(greatest_code(t.comps.as_slice()))
}

/// SIZE of MPU_RASR for a block.
fn size_field(size: u64) -> u32
    requires { size ≤ 2 ^ 32 }
    ensures exact { result ≡ words.size_field size }
    ensures small { result < 32 }
{
    if size == 1 << 32 {
        31
    } else {
        (size as u32).trailing_zeros().saturating_sub(1)
    }
}

/// The words of a region without closed eighths, by its number, its first address, its MPU_RASR without SIZE, and SIZE; the
/// address modulo 2^32.
fn region(number: u32, base: u32, rights: u32, size: u32) -> Region
    requires number { number < 16 }
    requires rights { rights < 2 ^ 30 }
    requires size { size < 32 }
    ensures { result ≡ record { rbar = word (base + 2 ^ 4 + number); rasr = word (rights + 0 * 2 ^ 8 + size * 2) } }
{
    Region {
        rbar: base.wrapping_add(16 + number),
        rasr: rights + size * 2,
    }
}

/// Region 0.
fn background(t: &Tables) -> Region
    ensures { result ≡ region_words (background_of t.now.closed t.now.base) }
{
    if t.closed {
        region(0, t.base / 0x10_0000 * 0x10_0000, 0x1206_0001, 19)
    } else {
        region(0, 0, 0x1206_0001, 29)
    }
}

/// Region 1.
fn tables_region(t: &Tables) -> Region
    ensures { result ≡ region_words (words.region_of 1 t.now.base (layout.tables_size t.now) 0 Code) }
{
    region(1, t.base, 0x0602_0001, size_field(tables_size(t)))
}

/// Region 3 with all eighths open.
fn stack_region(t: &Tables) -> Region
    ensures { result ≡ region_words (words.region_of 3 t.now.stack.base t.now.stack.size 0 Stack) }
{
    region(
        3,
        t.stack.base,
        0x1306_0001,
        size_field(u64::from(t.stack.size)),
    )
}

/// A word is a number below 2^32.
fn as_word(number: u32) -> u32
    ensures { result ≡ word number }
{
    number
}

/// What the lists take of the tables, for a leave stub at address 0.
pub fn without_stub(t: &Tables) -> Numbers
    ensures { constants_of result ≡ constants_with 0 t.now }
{
    let slots = number_of_slots(t);
    let compartments_at = behind(t.base, PAGE_SIZE + HEAD_SIZE, 1);
    let record = behind(RECORD_SIZE, SLOT_SIZE, slots);
    let sites_at = behind(compartments_at, record, t.comps.len());
    let targets_at = behind(sites_at, SITE_SIZE, t.sites.len());
    let lends_at = behind(targets_at, TARGET_SIZE, t.targets.len());
    let inits_at = behind(lends_at, LEND_SIZE, t.lends.len());
    Numbers {
        slots: slots.min(12) as u8,
        block: as_word(t.monitor),
        loans_at: t.monitor.wrapping_add(LOANS_OFFSET),
        block_end: t.monitor.wrapping_add(BLOCK_SIZE),
        stack: as_word(t.stack.base),
        stack_end: t.stack.base.wrapping_add(t.stack.size),
        eighth: (t.stack.size / 8).trailing_zeros(),
        compartments_at,
        sites_at,
        sites: behind(0, 1, t.sites.len()),
        targets_at,
        lends_at,
        lends: behind(0, 1, t.lends.len()),
        inits_at,
        inits: behind(0, 1, t.inits.len()),
        words: behind(0, 1, t.words.len()),
        background: background(t),
        tables: tables_region(t),
        stack_region: stack_region(t),
        main: as_word(t.main),
        main_compartment: as_word(t.main_comp),
        stub_entry: 1,
        closed: t.closed,
    }
}
