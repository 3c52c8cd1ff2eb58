//! The bytes of flash: the monitor's page, the words of the tables, and the code of compartments in their blocks.

ghost use Rattle.std.specs.Prelude.{◌≡◌, ◌-◌, ◌++◌, IfOk, IfSome, OnOk, OnSome};
ghost use Rattle.std.specs.List.{fold, flat_map};
ghost use Rattle.base_words.specs.Bytes.{write_all};
ghost use Rattle.plan_model.specs.Lists.{numbers_below};
ghost use Rattle.plan_model.specs.Placement.{flash_used};
ghost use Rattle.monitor_model.specs.Layout as layout;
ghost use Rattle.monitor_model.specs.Area as areas;
ghost use Rattle.monitor_program.specs.Page as pages;
ghost use Rattle.image_entries.specs.Making.{IsReady};
ghost use Rattle.image_linker.specs.Placing.{with_code_of, flash_with};

use crate::code::compartment_code;
use base_words::memory::write_words;
use image_entries::entries::base_of;
use image_entries::making::Making;
use machine_protection::region::Region;
use monitor_code::page::page;
use monitor_model::{CompRecord, InitRecord, SiteRecord, Tables, TargetRecord};
use plan_model::plan::Plan;
use std::alloc::{AllocError, Global};

/// Puts the two words of a region behind others.
fn put_region(words: &mut Vec<u32>, region: &Region) -> Result<(), AllocError>
    ensures { OnOk result (words.new.items ≡ words.old.items ++ areas.region_words region.now) }
{
    words.extend_from_slice(&[region.rbar, region.rasr])
}

/// Puts the words of a compartment's record behind others.
fn put_compartment(words: &mut Vec<u32>, compartment: &CompRecord) -> Result<(), AllocError>
    ensures { OnOk result (words.new.items ≡ words.old.items ++ areas.compartment_words compartment.now) }
{
    put_region(words, &compartment.code)?;
    for slot in compartment.slots.as_slice() {
        put_region(words, slot)?;
    }
    words.extend_from_slice(&[compartment.mask, compartment.reads])
}

/// Puts the words of all compartments' records behind others.
fn put_compartments(words: &mut Vec<u32>, all: &[CompRecord]) -> Result<(), AllocError>
    ensures { OnOk result (words.new.items ≡ words.old.items ++ flat_map areas.compartment_words all.now) }
{
    for compartment in all {
        put_compartment(words, compartment)?;
    }
    Ok(())
}

/// Puts the words of the records of sites behind others.
fn put_sites(words: &mut Vec<u32>, all: &[SiteRecord]) -> Result<(), AllocError>
    ensures { OnOk result (words.new.items ≡ words.old.items ++ flat_map areas.site_words all.now) }
{
    for site in all {
        words.extend_from_slice(&[site.ret, site.first, site.count])?;
    }
    Ok(())
}

/// Puts the words of the records of targets behind others.
fn put_targets(words: &mut Vec<u32>, all: &[TargetRecord]) -> Result<(), AllocError>
    ensures { OnOk result (words.new.items ≡ words.old.items ++ flat_map areas.target_words all.now) }
{
    for target in all {
        words.extend_from_slice(&[target.entry, target.compartment])?;
    }
    Ok(())
}

/// Puts the words of the records of ranges with initial words behind others.
fn put_inits(words: &mut Vec<u32>, all: &[InitRecord]) -> Result<(), AllocError>
    ensures { OnOk result (words.new.items ≡ words.old.items ++ flat_map areas.init_words all.now) }
{
    for init in all {
        words.extend_from_slice(&[init.at, init.end, init.from])?;
    }
    Ok(())
}

/// A length as a word.
fn count(length: usize) -> Result<u32, AllocError>
    ensures { IfOk result (λ n. n ≡ length) }
{
    match u32::try_from(length) {
        Ok(count) => Ok(count),
        Err(_) => Err(AllocError),
    }
}

/// Puts the eight words in front of the records behind others.
fn put_head(words: &mut Vec<u32>, t: &Tables) -> Result<(), AllocError>
    ensures { OnOk result (words.new.items ≡ words.old.items ++ areas.head t.now) }
{
    words.extend_from_slice(&[
        count(t.comps.len())?,
        count(t.sites.len())?,
        count(t.targets.len())?,
        count(t.lends.len())?,
        count(t.inits.len())?,
        t.stack.base,
        t.stack.size,
        t.monitor,
    ])
}

/// Puts the words of the tables behind others.
fn put_area(words: &mut Vec<u32>, t: &Tables) -> Result<(), AllocError>
    ensures { OnOk result (words.new.items ≡ words.old.items ++ areas.area t.now) }
{
    put_head(words, t)?;
    put_compartments(words, t.comps.as_slice())?;
    put_sites(words, t.sites.as_slice())?;
    put_targets(words, t.targets.as_slice())?;
    words.extend_from_slice(t.lends.as_slice())?;
    put_inits(words, t.inits.as_slice())?;
    words.extend_from_slice(t.words.as_slice())?;
    Ok(())
}

/// Writes bytes from a place in memory on; none where memory ends before they do.
pub fn put_bytes(memory: &mut [u8], first: usize, bytes: &[u8]) -> Option<()>
    ensures { OnSome result (memory.new ≡ write_all 1 first bytes.now memory.old) }
{
    if memory.len() < first || memory.len() - first < bytes.len() {
        return None;
    }
    for k in 0..bytes.len() {
        memory[first + k] = bytes[k];
    }
    Some(())
}

/// Writes words, where the memory has the place.
fn put_words(memory: &mut [u8], at: u32, words: &[u32]) -> Option<()>
    ensures { OnSome result (memory.new ≡ write_all 4 at words.now memory.old) }
{
    let first = at as usize;
    if memory.len() < first || (memory.len() - first) / 4 < words.len() {
        return None;
    }
    write_words(memory, first, words);
    Some(())
}

/// Writes the monitor's page.
fn put_page(alloc: Global, base: u32, t: &Tables, flash: &mut [u8]) -> Result<(), AllocError>
    ensures { OnOk result (flash.new ≡ write_all 1 (t.now.base - base) (pages.page t.now) flash.old) }
{
    let bytes = page(alloc, t)?;
    let first = t.base.saturating_sub(base) as usize;
    match put_bytes(flash, first, &bytes) {
        None => Err(AllocError),
        Some(()) => Ok(()),
    }
}

/// Writes the words of the tables.
fn put_tables(alloc: Global, base: u32, t: &Tables, flash: &mut [u8]) -> Result<(), AllocError>
    ensures { OnOk result (flash.new ≡ write_all 4 (layout.head_at t.now - base) (areas.area t.now) flash.old) }
{
    let mut words = Vec::new(alloc);
    put_area(&mut words, t)?;
    let Some(head) = t.base.checked_add(4096) else {
        return Err(AllocError);
    };
    match put_words(flash, head.saturating_sub(base), &words) {
        None => Err(AllocError),
        Some(()) => Ok(()),
    }
}

/// Writes the code of a compartment into its block.
fn put_code(
    alloc: Global,
    base: u32,
    making: &Making,
    compartment: u32,
    flash: &mut [u8],
) -> Result<(), AllocError>
    requires { IsReady making.now }
    ensures { OnOk result (flash.new ≡ with_code_of making.now base flash.old compartment) }
{
    let bytes = compartment_code(alloc, making, compartment)?;
    let first = base_of(making.plan, compartment).saturating_sub(base) as usize;
    match put_bytes(flash, first, &bytes) {
        None => Err(AllocError),
        Some(()) => Ok(()),
    }
}

/// Writes the code of all compartments.
fn put_codes(
    alloc: Global,
    base: u32,
    making: &Making,
    count: u32,
    flash: &mut [u8],
) -> Result<(), AllocError>
    requires { IsReady making.now }
    ensures { OnOk result (flash.new ≡ fold (with_code_of making.now base) flash.old (numbers_below count)) }
{
    for compartment in 0..count {
        put_code(alloc, base, making, compartment, flash)?;
    }
    Ok(())
}

/// The bytes of all blocks of flash; none where they take more than 32 bits.
fn flash_size(plan: &Plan) -> Option<u32>
    ensures { IfSome result (λ n. n ≡ flash_used plan.now) }
{
    let mut total = plan.tables.size;
    for spot in plan.code.as_slice() {
        total = total.checked_add(spot.size)?;
    }
    Some(total)
}

/// The bytes of flash, which begins at an address.
pub(crate) fn flash(
    alloc: Global,
    base: u32,
    making: &Making,
    t: &Tables,
    count: u32,
) -> Result<Vec<u8>, AllocError>
    requires { IsReady making.now }
    ensures { IfOk result (λ bytes. bytes.items ≡ flash_with making.now base t.now count) }
{
    let Some(size) = flash_size(making.plan) else {
        return Err(AllocError);
    };
    let mut bytes = vec![in alloc; 0xFF; size as usize]?;
    put_page(alloc, base, t, &mut bytes)?;
    put_tables(alloc, base, t, &mut bytes)?;
    put_codes(alloc, base, making, count, &mut bytes)?;
    Ok(bytes)
}
