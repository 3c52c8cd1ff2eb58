//! The lines of sites, of lendable locals and of ranges that start-up fills.

ghost use Rattle.std.specs.Prelude.{◌≡◌, ◌++◌, OnOk};
ghost use Rattle.monitor_model.specs.Records as records;
ghost use Rattle.aces_audit.specs.TableLines as lines;

use monitor_model::{InitRecord, SiteRecord, Tables, TargetRecord};
use plan_report::text::Text;
use std::alloc::AllocError;

/// The targets of a site, as far as the list goes.
fn targets_of<'a>(tables: &'a Tables, site: &SiteRecord) -> &'a [TargetRecord]
    ensures { result.now ≡ records.targets_of tables.now site.now }
{
    let all = tables.targets.as_slice();
    let first = (site.first as usize).min(all.len());
    let behind = &all[first..];
    let count = (site.count as usize).min(behind.len());
    &behind[..count]
}

/// Puts a target: its compartment and its entry.
fn put_target(text: &mut Text, target: &TargetRecord) -> Result<(), AllocError>
    ensures { OnOk result (text.new ≡ text.old ++ lines.target_text target.now) }
{
    text.put(b" ")?;
    text.put_decimal(u64::from(target.compartment))?;
    text.put(b":0x")?;
    text.put_hexadecimal(8, target.entry)
}

/// Puts targets.
#[tactic(auto, unfolding(crate::specs::TableLines::target_texts))]
fn put_targets(text: &mut Text, targets: &[TargetRecord]) -> Result<(), AllocError>
    ensures { OnOk result (text.new ≡ text.old ++ lines.target_texts targets.now) }
{
    for i in 0..targets.len() {
        put_target(text, &targets[i])?;
    }
    Ok(())
}

/// Puts the line of a site.
fn put_site(text: &mut Text, tables: &Tables, site: &SiteRecord) -> Result<(), AllocError>
    ensures { OnOk result (text.new ≡ text.old ++ lines.site_line tables.now site.now) }
{
    text.put(b"site 0x")?;
    text.put_hexadecimal(8, site.ret)?;
    text.put(b" targets")?;
    put_targets(text, targets_of(tables, site))?;
    text.put(b"\n")
}

/// Puts the lines of sites.
#[tactic(auto, unfolding(crate::specs::TableLines::site_lines))]
pub(crate) fn put_sites(text: &mut Text, tables: &Tables) -> Result<(), AllocError>
    ensures { OnOk result (text.new ≡ text.old ++ lines.site_lines tables.now) }
{
    let sites = tables.sites.as_slice();
    for i in 0..sites.len() {
        put_site(text, tables, &sites[i])?;
    }
    Ok(())
}

/// Puts the line of a lendable local.
fn put_lent(text: &mut Text, number: u64, size: u32) -> Result<(), AllocError>
    ensures { OnOk result (text.new ≡ text.old ++ lines.lent_line number size) }
{
    text.put(b"lent ")?;
    text.put_decimal(number)?;
    text.put(b" ")?;
    text.put_decimal(u64::from(size))?;
    text.put(b"\n")
}

/// Puts the lines of lendable locals.
#[tactic(auto, unfolding(crate::specs::TableLines::lent_lines))]
pub(crate) fn put_lents(text: &mut Text, tables: &Tables) -> Result<(), AllocError>
    ensures { OnOk result (text.new ≡ text.old ++ lines.lent_lines tables.now) }
{
    let sizes = tables.lends.as_slice();
    for i in 0..sizes.len() {
        put_lent(text, i as u64, sizes[i])?;
    }
    Ok(())
}

/// Puts the line of a range that start-up fills.
fn put_fill(text: &mut Text, init: &InitRecord) -> Result<(), AllocError>
    ensures { OnOk result (text.new ≡ text.old ++ lines.fill_line init.now) }
{
    text.put(b"fills 0x")?;
    text.put_hexadecimal(8, init.at)?;
    text.put(b" 0x")?;
    text.put_hexadecimal(8, init.end)?;
    text.put(b"\n")
}

/// Puts the lines of the ranges that start-up fills.
#[tactic(auto, unfolding(crate::specs::TableLines::fill_lines))]
pub(crate) fn put_fills(text: &mut Text, tables: &Tables) -> Result<(), AllocError>
    ensures { OnOk result (text.new ≡ text.old ++ lines.fill_lines tables.now) }
{
    let inits = tables.inits.as_slice();
    for i in 0..inits.len() {
        put_fill(text, &inits[i])?;
    }
    Ok(())
}
