//! The lines of a compartment's slots.

ghost use Rattle.std.specs.Prelude.{◌≡◌, ◌++◌, codes, OnOk};
ghost use Rattle.plan_report.specs.Names.{spaced};
ghost use Rattle.aces_audit.specs.SlotLines as lines;

use machine_devices::image::Window;
use machine_protection::region::Region;
use machine_protection::words::Rights;
use monitor_audit::parts::{base_of, size_log, size_of, taken_out};
use plan_report::text::Text;
use std::alloc::AllocError;

/// Whether a region has these rights.
fn has_rights(region: &Region, rights: Rights) -> bool
    ensures { result ≡ lines.has_rights rights region.now }
{
    region.rasr / 0x1_0000 == rights.word() / 0x1_0000
}

/// What a slot is.
fn slot_word(region: &Region) -> &'static [u8]
    ensures { result.now ≡ lines.slot_word region.now }
{
    if has_rights(region, Rights::Ram) {
        b" data"
    } else if has_rights(region, Rights::Background) {
        b" read"
    } else {
        b" periph"
    }
}

/// Puts which eighths are taken out, where there are any.
fn put_less(text: &mut Text, region: &Region) -> Result<(), AllocError>
    ensures { OnOk result (text.new ≡ text.old ++ lines.less_text region.now) }
{
    let less = taken_out(region);
    if size_log(region) < 8 || less == 0 {
        return Ok(());
    }
    text.put(b" less 0x")?;
    text.put_hexadecimal(2, less)
}

/// Whether a window lies in the range of a region.
fn lies_in(region: &Region, window: &Window) -> bool
    ensures { result ≡ lines.lies_in region.now window.now }
{
    let base = base_of(region);
    let first = u64::from(window.base);
    base <= first && first + u64::from(window.size) <= base + size_of(region)
}

/// Puts a name behind a space.
fn put_name(text: &mut Text, name: &[u8]) -> Result<(), AllocError>
    ensures { OnOk result (text.new ≡ text.old ++ (codes " " ++ name.now)) }
{
    text.put(b" ")?;
    text.put(name)
}

/// Puts the names of the windows in the range of a region.
fn put_names(text: &mut Text, windows: &[Window], region: &Region) -> Result<(), AllocError>
    ensures { OnOk result (text.new ≡ text.old ++ spaced (lines.names_in windows.now region.now)) }
{
    for window in windows {
        if lies_in(region, window) {
            put_name(text, window.name.as_slice())?;
        }
    }
    Ok(())
}

/// Puts the line of a slot that is not free.
#[tactic(auto, unfolding(crate::specs::SlotLines::used_line))]
fn put_used(
    text: &mut Text,
    windows: &[Window],
    number: u64,
    region: &Region,
) -> Result<(), AllocError>
    ensures { OnOk result (text.new ≡ text.old ++ lines.used_line windows.now number region.now) }
{
    text.put(b"slot ")?;
    text.put_decimal(number)?;
    text.put(slot_word(region))?;
    text.put_range(base_of(region) as u32, size_of(region))?;
    put_less(text, region)?;
    put_names(text, windows, region)?;
    text.put(b"\n")
}

/// Puts the line of a slot, where it is not free.
fn put_slot(
    text: &mut Text,
    windows: &[Window],
    number: u64,
    region: &Region,
) -> Result<(), AllocError>
    ensures { OnOk result (text.new ≡ text.old ++ lines.slot_line windows.now number region.now) }
{
    if region.rasr == 0 {
        return Ok(());
    }
    put_used(text, windows, number, region)
}

/// Puts the lines of slots, which are numbered from 4 on.
#[tactic(auto, unfolding(crate::specs::SlotLines::slot_lines))]
pub(crate) fn put_slots(
    text: &mut Text,
    windows: &[Window],
    slots: &[Region],
) -> Result<(), AllocError>
    ensures { OnOk result (text.new ≡ text.old ++ lines.slot_lines windows.now slots.now) }
{
    for i in 0..slots.len() {
        put_slot(text, windows, 4 + i as u64, &slots[i])?;
    }
    Ok(())
}
