//! The lines of the monitor's tables.

ghost use Rattle.std.specs.Prelude.{◌≡◌, ◌+◌, ◌*◌, ◌++◌, codes, IfOk, OnOk};
ghost use Rattle.monitor_model.specs.Layout.{compartment_size};
ghost use Rattle.image_symbols.specs.MonitorLines as lines;

use crate::monitor_lines::{put_range_line, sum};
use monitor_constants::number_of_slots;
use monitor_model::Tables;
use plan_report::text::Text;
use std::alloc::AllocError;

/// The bytes of so many records of a size.
fn bytes_of(size: u32, count: usize) -> Result<u32, AllocError>
    ensures { IfOk result (λ n. n ≡ size * count) }
{
    let Ok(count) = u32::try_from(count) else {
        return Err(AllocError);
    };
    match size.checked_mul(count) {
        Some(bytes) => Ok(bytes),
        None => Err(AllocError),
    }
}

/// The bytes of a compartment's record.
fn record_size(tables: &Tables) -> Result<u32, AllocError>
    ensures { IfOk result (λ n. n ≡ compartment_size tables.now) }
{
    sum(bytes_of(8, number_of_slots(tables))?, 16)
}

/// Puts the line of so many records of a size, which stand there, and tells the address behind them.
fn put_table(
    text: &mut Text,
    at: u32,
    size: u32,
    count: usize,
    name: &[u8],
) -> Result<u32, AllocError>
    ensures next { IfOk result (λ n. n ≡ at + size * count) }
    ensures text { OnOk result (text.new ≡ text.old ++ lines.range_line (codes "tables") at (size * count) name.now) }
{
    let bytes = bytes_of(size, count)?;
    let behind = sum(at, bytes)?;
    put_range_line(text, b"tables", at, bytes, name)?;
    Ok(behind)
}

/// Puts the lines of the tables.
#[tactic(auto, unfolding(crate::specs::MonitorLines::table_lines))]
pub(crate) fn put_tables(text: &mut Text, tables: &Tables) -> Result<(), AllocError>
    ensures { OnOk result (text.new ≡ text.old ++ lines.table_lines tables.now) }
{
    let record = record_size(tables)?;
    let head = sum(tables.base, 4096)?;
    let comps = put_table(text, head, 32, 1, b"head")?;
    let sites = put_table(text, comps, record, tables.comps.len(), b"compartments")?;
    let targets = put_table(text, sites, 12, tables.sites.len(), b"sites")?;
    let lends = put_table(text, targets, 8, tables.targets.len(), b"targets")?;
    let inits = put_table(text, lends, 4, tables.lends.len(), b"lent")?;
    let words = put_table(text, inits, 12, tables.inits.len(), b"ranges")?;
    put_table(text, words, 4, tables.words.len(), b"words")?;
    Ok(())
}
