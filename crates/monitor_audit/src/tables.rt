//! The check of the tables, and the tables of the images that pass it.

ghost use Rattle.std.specs.Prelude.{◌≡◌, ◌+◌, ◌-◌, ◌*◌, ◌≤◌, ◌<◌, drop, length, max, sum_by, IfOk};
ghost use Rattle.machine_devices.specs.Rules.{ObeysRules};
ghost use Rattle.monitor_model.specs.Records.{words_in};
ghost use Rattle.monitor_model.specs.Layout.{page_size, head_size};
ghost use Rattle.monitor_model.specs.FromFlash as flash;
ghost use Rattle.monitor_program.specs.TheCode.{monitor_code};
ghost use Rattle.monitor_audit.specs.Heads.{IsHead, KeepsLimits, words_offset};
ghost use Rattle.monitor_audit.specs.Findings.{IsFound};

use crate::head::{Head, head_fault, read_head};
use crate::moved::moved_word;
use crate::records::{all_read, compartments};
use base_lists::ListVec;
use machine_devices::image::Image;
use monitor_constants::{block_of, greatest_code, word_count};
use monitor_model::{InitRecord, SiteRecord, Tables, TargetRecord};
use std::alloc::{AllocError, Global};

/// What is found in the flash of an image.
#[derive(Drop)]
pub enum Found {
    /// Its tables, which are within their limits and lie in flash.
    Tables(Tables),
    /// The address of the first of the eight words that breaks its own rule; where the tables' block does not lie in flash, or what
    /// stands in it does not end there, of the first of the eight.
    Fault(u32),
}

/// Where the records behind those of compartments stand, and the initial words, counted behind the page.
#[derive(Clone, Copy)]
struct Offsets {
    sites: usize,
    targets: usize,
    lends: usize,
    inits: usize,
    words: usize,
}

fn offsets_of(head: &Head, slots: usize) -> Offsets
    requires slots { slots ≤ 12 }
    requires limits { KeepsLimits head.now }
    ensures sites { result.sites ≡ head_size + (8 * slots + 16) * head.now.comps }
    ensures targets { result.targets ≡ result.sites + 12 * head.now.sites }
    ensures lends { result.lends ≡ result.targets + 8 * head.now.targets }
    ensures inits { result.inits ≡ result.lends + 4 * head.now.lends }
    ensures words { result.words ≡ result.inits + 12 * head.now.inits }
{
    let sites = 32 + (8 * slots + 16) * head.comps as usize;
    let targets = sites + 12 * head.sites as usize;
    let lends = targets + 8 * head.targets as usize;
    let inits = lends + 4 * head.lends as usize;
    let words = inits + 12 * head.inits as usize;
    Offsets {
        sites,
        targets,
        lends,
        inits,
        words,
    }
}

/// The bytes behind the page.
fn behind_page(image: &Image) -> &[u8]
    requires { page_size ≤ length image.now.flash }
    ensures { result.now ≡ drop page_size image.now.flash }
{
    &image.flash.as_slice()[4096..]
}

/// The tables of an image whose records and words lie in flash.
fn read_tables(
    alloc: Global,
    image: &Image,
    head: &Head,
    inits: Vec<InitRecord>,
    count: usize,
) -> Result<Tables, AllocError>
    requires rules { ObeysRules image.now }
    requires is_head { IsHead (drop page_size image.now.flash) head.now }
    requires limits { KeepsLimits head.now }
    requires inits { inits.items ≡ flash.inits_read (drop page_size image.now.flash) (image.now.regions - 4) }
    requires count { count ≡ sum_by words_in inits.items }
    requires room { page_size + words_offset (image.now.regions - 4) head.now + 4 * count ≤ length image.now.flash }
    ensures { IfOk result (λ tables. tables ≡ flash.tables_of monitor_code image.now) }
{
    let bytes = behind_page(image);
    let slots = image.regions as usize - 4;
    let places = offsets_of(head, slots);
    let comps = compartments(alloc, bytes, 32, head.comps as usize, slots)?;
    let sites = all_read::<SiteRecord>(alloc, bytes, places.sites, head.sites as usize)?;
    let targets = all_read::<TargetRecord>(alloc, bytes, places.targets, head.targets as usize)?;
    let lends = all_read::<u32>(alloc, bytes, places.lends, head.lends as usize)?;
    let words = all_read::<u32>(alloc, bytes, places.words, count)?;
    Ok(Tables {
        base: image.flash_base,
        comps: ListVec::new(comps),
        sites: ListVec::new(sites),
        targets: ListVec::new(targets),
        lends: ListVec::new(lends),
        inits: ListVec::new(inits),
        words: ListVec::new(words),
        stack: head.stack,
        monitor: head.monitor,
        main: moved_word(image.flash.as_slice(), 72),
        main_comp: moved_word(image.flash.as_slice(), 64),
        closed: image.closed,
    })
}

/// The tables of an image where they are within their limits and their block lies in flash, and else where they are not.
pub fn find_tables(alloc: Global, image: &Image) -> Result<Found, AllocError>
    requires rules { ObeysRules image.now }
    requires room { page_size + head_size ≤ length image.now.flash }
    ensures { IfOk result (IsFound image.now) }
{
    let bytes = behind_page(image);
    let head = read_head(bytes);
    if let Some(at) = head_fault(image, &head) {
        return Ok(Found::Fault(at));
    }
    let first = image.flash_base + 4096;
    let places = offsets_of(&head, image.regions as usize - 4);
    if places.words > bytes.len() {
        return Ok(Found::Fault(first));
    }
    let inits = all_read::<InitRecord>(alloc, bytes, places.inits, head.inits as usize)?;
    let count = word_count(&inits);
    let end = places.words as u64 + 4 * count;
    if end > bytes.len() as u64 {
        return Ok(Found::Fault(first));
    }
    let tables = read_tables(alloc, image, &head, inits, count as usize)?;
    let size = block_of(4096 + end).max(greatest_code(tables.comps.as_slice()));
    if size > image.flash.len() as u64 {
        return Ok(Found::Fault(first));
    }
    Ok(Found::Tables(tables))
}
