//! The records of compartments: the words of their regions, and their masks.

ghost use Rattle.std.specs.Prelude.{◌≡◌, ◌+◌, ◌<◌, ◌≤◌, ◌∷◌, ◌++◌, ℕ, map, IfOk, IfSome, OnOk};
ghost use Rattle.machine_protection.specs.RegionWords.{region_of};
ghost use Rattle.ir_program.specs.Seen.{program_of};
ghost use Rattle.plan_model.specs.Lists.{numbers_below};
ghost use Rattle.plan_model.specs.Regions as data_regions;
ghost use Rattle.plan_model.specs.Blocks as blocks;
ghost use Rattle.plan_model.specs.Slots as slots;
ghost use Rattle.image_model.specs.LinkedTables as records;
ghost use Rattle.image_blocks.specs.Uses.{use_of, slots_left};

use crate::places::region_spot;
use base_lists::ListVec;
use ir_program::program::Program;
use machine_protection::power::Pow2;
use machine_protection::region::Region;
use machine_protection::words::{Rights, region};
use monitor_model::CompRecord;
use plan_model::graph::{Cover, DataRegion, Final};
use plan_model::plan::{Plan, Spot};
use plan_sizes::regions::region_bytes;
use std::alloc::{AllocError, Global};

/// What a slot is for: a block, which of its eighths are taken out, and who may do what there.
#[derive(Clone, Copy)]
pub(crate) struct SlotUse {
    pub(crate) base: u32,
    pub(crate) size: u32,
    pub(crate) srd: u8,
    pub(crate) rights: Rights,
}

/// RASR.SRD of a block that holds so many bytes from its first on.
#[tactic(auto, unfolding(plan_model::specs::Blocks::subregions_out, plan_model::specs::Blocks::open_eighths), using(crate::proofs::Blocks::no_eighth_out))]
fn subregions_out(size: u32, bytes: u32) -> Option<u8>
    ensures { IfSome result (λ srd. srd ≡ blocks.subregions_out size bytes) }
{
    if size < 256 {
        return Some(0);
    }
    let open = bytes.checked_add(size / 8 - 1)? / (size / 8);
    if open >= 8 {
        return Some(0);
    }
    Some((256 - (1u32 << open)) as u8)
}

/// Who may do what in a data region, for one of its users.
fn data_rights(data_region: &DataRegion, compartment: u32) -> Rights
    ensures { result ≡ slots.data_rights data_region.now compartment }
{
    if data_region.writers.as_slice().contains(&compartment) {
        Rights::Ram
    } else {
        Rights::Background
    }
}

/// Whether a compartment uses a data region.
fn is_user(compartment: u32, data_region: &DataRegion) -> bool
    ensures { result ≡ data_regions.is_user compartment data_region.now }
{
    data_region.writers.as_slice().contains(&compartment)
        || data_region.readers.as_slice().contains(&compartment)
}

/// The slot of a data region.
fn data_slot(
    program: &Program,
    spot: Spot,
    data_region: &DataRegion,
    compartment: u32,
) -> Option<SlotUse>
    ensures { IfSome result (λ u. use_of u ≡ record { base = spot.base; size = spot.size; srd = blocks.subregions_out spot.size (blocks.region_bytes (program_of program.now) data_region.now.globals); rights = slots.data_rights data_region.now compartment }) }
{
    let bytes = region_bytes(program, data_region.globals.as_slice())?;
    Some(SlotUse {
        base: spot.base,
        size: spot.size,
        srd: subregions_out(spot.size, bytes)?,
        rights: data_rights(data_region, compartment),
    })
}

/// The slots of a compartment's data regions.
fn data_slots(
    alloc: Global,
    program: &Program,
    graph: &Final,
    plan: &Plan,
    compartment: u32,
) -> Result<Vec<SlotUse>, AllocError>
    ensures { IfOk result (λ uses. map use_of uses.items ≡ map (slots.data_slot (program_of program.now) graph.now plan.now compartment) (data_regions.regions_used graph.now.regions compartment)) }
{
    let mut uses = Vec::new(alloc);
    for (number, data_region) in graph.regions.as_slice().iter().enumerate() {
        if is_user(compartment, data_region) {
            let spot = region_spot(plan, number);
            let Some(slot) = data_slot(program, spot, data_region, compartment) else {
                return Err(AllocError);
            };
            uses.push(slot)?;
        }
    }
    Ok(uses)
}

/// Puts the slots of covers behind others.
fn put_covers(covers: &[Cover], uses: &mut Vec<SlotUse>) -> Result<(), AllocError>
    ensures { OnOk result (map use_of uses.new.items ≡ map use_of uses.old.items ++ map slots.cover_slot covers.now) }
{
    for cover in covers {
        uses.push(SlotUse {
            base: cover.base,
            size: cover.size,
            srd: 0,
            rights: Rights::Device,
        })?;
    }
    Ok(())
}

/// The slots of a compartment's data regions, and then those of its covers.
fn slot_uses(
    alloc: Global,
    program: &Program,
    graph: &Final,
    plan: &Plan,
    compartment: u32,
) -> Result<Vec<SlotUse>, AllocError>
    ensures { IfOk result (λ uses. map use_of uses.items ≡ slots.slot_uses (program_of program.now) graph.now plan.now compartment) }
{
    let mut uses = data_slots(alloc, program, graph, plan, compartment)?;
    if let Some(covers) = graph.covers.as_slice().get(compartment as usize) {
        put_covers(covers.as_slice(), &mut uses)?;
    }
    Ok(uses)
}

/// The words of a region for a block, if it is a block that a region can hold.
fn region_for(number: u8, slot: SlotUse) -> Option<Region>
    requires { number < 16 }
    ensures { IfSome result (λ g. g ≡ region_of number slot.base slot.size slot.srd slot.rights) }
{
    let size = Pow2::new(slot.size)?;
    if slot.size < 32 || slot.base % slot.size != 0 {
        return None;
    }
    Some(region(number, slot.base, size, slot.srd, slot.rights))
}

/// The slot of a place, counted from number 4 on; it is free where nothing is left to be held.
fn slot_at(uses: &[SlotUse], k: u8) -> Option<Region>
    requires { k < 12 }
    ensures { IfSome result (λ g. (count : ℕ) → k < count → slots_left k count uses.now ≡ g ∷ slots_left (k + 1) count uses.now) }
{
    let number = 4 + k;
    let place = k as usize;
    if place >= uses.len() {
        return Some(Region {
            rbar: 16 + u32::from(number),
            rasr: 0,
        });
    }
    let words = region_for(number, uses[place])?;
    Some(words)
}

/// A number of slots from number 4 on, of which the last are free.
fn slot_regions(alloc: Global, uses: &[SlotUse], count: u8) -> Result<Vec<Region>, AllocError>
    requires { count ≤ 12 }
    ensures { IfOk result (λ regions. regions.items ≡ slots.slots_from 4 count (map use_of uses.now)) }
{
    let mut regions = Vec::new(alloc);
    for k in 0..count {
        let Some(words) = slot_at(uses, k) else {
            return Err(AllocError);
        };
        regions.push(words)?;
    }
    Ok(regions)
}

/// A mask of a compartment, which is 0 where there is one alone.
fn kept_mask(graph: &Final, masks: &[u32], compartment: u32) -> u32
    ensures { result ≡ slots.kept_mask graph.now masks.now compartment }
{
    if graph.groups.count <= 1 {
        return 0;
    }
    match masks.get(compartment as usize) {
        Some(mask) => *mask,
        None => 0,
    }
}

/// Region 2 of a compartment, which holds its code.
fn code_region(plan: &Plan, compartment: u32) -> Option<Region>
    ensures { IfSome result (λ g. g ≡ slots.code_region plan.now compartment) }
{
    let spot = plan.code.as_slice().get(compartment as usize)?;
    region_for(
        2,
        SlotUse {
            base: spot.base,
            size: spot.size,
            srd: 0,
            rights: Rights::Code,
        },
    )
}

/// The record of a compartment, with so many slots.
fn comp_record(
    alloc: Global,
    program: &Program,
    graph: &Final,
    plan: &Plan,
    slots: u8,
    compartment: u32,
) -> Result<CompRecord, AllocError>
    requires { slots ≤ 12 }
    ensures { IfOk result (λ made. made ≡ records.comp_record (program_of program.now) graph.now plan.now slots compartment) }
{
    let Some(code) = code_region(plan, compartment) else {
        return Err(AllocError);
    };
    let uses = slot_uses(alloc, program, graph, plan, compartment)?;
    Ok(CompRecord {
        code,
        slots: ListVec::new(slot_regions(alloc, &uses, slots)?),
        mask: kept_mask(graph, graph.masks.as_slice(), compartment),
        reads: kept_mask(graph, graph.reads.as_slice(), compartment),
    })
}

/// The records of all compartments.
pub fn comp_records(
    alloc: Global,
    program: &Program,
    graph: &Final,
    plan: &Plan,
    slots: u8,
) -> Result<Vec<CompRecord>, AllocError>
    requires { slots ≤ 12 }
    ensures { IfOk result (λ all. all.items ≡ map (records.comp_record (program_of program.now) graph.now plan.now slots) (numbers_below graph.now.groups.count)) }
{
    let mut all = Vec::new(alloc);
    for compartment in 0..graph.groups.count {
        all.push(comp_record(alloc, program, graph, plan, slots, compartment)?)?;
    }
    Ok(all)
}
