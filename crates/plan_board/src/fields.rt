//! The fields of a board, in the order in which they are tested.

ghost use Rattle.std.specs.Prelude.{◌≡◌};
ghost use Rattle.toml.specs.View.{table_view};
ghost use Rattle.plan_board.specs.Fields as fields;

use crate::document::{
    KeyFault, find, is_closed, lowest_named, number_at, number_of, table_at, table_of,
};
use crate::key::Key;
use base_lists::ListVec;
use plan_model::Spot;
use plan_model::plan::{Board, Lowest};
use std::alloc::Global;
use toml::Table;

/// A protection unit, and whether loads are confined.
#[derive(Clone, Copy)]
pub(crate) struct Unit {
    regions: u32,
    closed: bool,
}

/// Where flash is.
fn flash(document: &Table) -> Result<Spot, KeyFault>
    ensures { result ≡ fields.flash_of (table_view document.now) }
{
    let flash = table_at(document, Key::Flash)?;
    let base = number_at(flash, Key::FlashBase)?;
    let size = number_at(flash, Key::FlashSize)?;
    Ok(Spot { base, size })
}

/// Which block stands at RAM's base, by RAM's table.
fn lowest(ram: &Table) -> Result<Lowest, KeyFault>
    ensures { result ≡ fields.lowest_of (table_view ram.now) }
{
    match find(ram, Key::RamLowest) {
        None => Ok(Lowest::Largest),
        Some(value) => match value.as_str() {
            None => Err(KeyFault::Kind(Key::RamLowest)),
            Some(text) => lowest_named(text),
        },
    }
}

/// How many regions the unit has, by its table.
fn regions(mpu: &Table) -> Result<u32, KeyFault>
    ensures { result ≡ fields.regions_of (table_view mpu.now) }
{
    match find(mpu, Key::MpuRegions) {
        None => Ok(8),
        Some(value) => number_of(value, Key::MpuRegions),
    }
}

/// Whether loads are confined, by the unit's table.
fn closed(mpu: &Table) -> Result<bool, KeyFault>
    ensures { result ≡ fields.closed_of (table_view mpu.now) }
{
    match find(mpu, Key::MpuReads) {
        None => Ok(false),
        Some(value) => match value.as_str() {
            None => Err(KeyFault::Kind(Key::MpuReads)),
            Some(text) => is_closed(text),
        },
    }
}

/// The protection unit, by its table.
fn unit_in(mpu: &Table) -> Result<Unit, KeyFault>
    ensures { result ≡ fields.unit_in (table_view mpu.now) }
{
    let regions = regions(mpu)?;
    let closed = closed(mpu)?;
    Ok(Unit { regions, closed })
}

/// The protection unit, and whether loads are confined.
fn unit_of(document: &Table) -> Result<Unit, KeyFault>
    ensures { result ≡ fields.unit_of (table_view document.now) }
{
    match find(document, Key::Mpu) {
        None => Ok(Unit {
            regions: 8,
            closed: false,
        }),
        Some(value) => unit_in(table_of(value, Key::Mpu)?),
    }
}

/// The board of a document whose tables may have further keys, as one that denies nothing.
#[tactic(auto, unfolding(crate::specs::Fields::board_of))]
pub(crate) fn board_of(alloc: Global, document: &Table) -> Result<Board, KeyFault>
    ensures { result ≡ fields.board_of (table_view document.now) }
{
    let flash = flash(document)?;
    let table = table_at(document, Key::Ram)?;
    let ram_base = number_at(table, Key::RamBase)?;
    let ram_size = number_at(table, Key::RamSize)?;
    let stack = number_at(table, Key::RamStack)?;
    let lowest = lowest(table)?;
    let unit = unit_of(document)?;
    Ok(Board {
        flash_base: flash.base,
        flash_size: flash.size,
        ram_base,
        ram_size,
        stack,
        lowest,
        regions: unit.regions,
        closed: unit.closed,
        denied: ListVec::new(Vec::new(alloc)),
    })
}
