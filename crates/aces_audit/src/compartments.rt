//! The lines of compartments.

ghost use Rattle.std.specs.Prelude.{◌≡◌, ◌++◌, OnOk};
ghost use Rattle.aces_audit.specs.TableLines as lines;

use crate::slots::put_slots;
use machine_devices::image::Window;
use machine_protection::region::Region;
use monitor_audit::parts::{base_of, size_of};
use monitor_model::{CompRecord, Tables};
use plan_report::text::Text;
use std::alloc::AllocError;

/// Puts the line of a compartment's code.
fn put_code(text: &mut Text, number: u64, code: &Region) -> Result<(), AllocError>
    ensures { OnOk result (text.new ≡ text.old ++ lines.code_line number code.now) }
{
    text.put(b"compartment ")?;
    text.put_decimal(number)?;
    text.put(b" code")?;
    text.put_range(base_of(code) as u32, size_of(code))?;
    text.put(b"\n")
}

/// Puts the line of a compartment's masks of lendable locals.
fn put_masks(text: &mut Text, compartment: &CompRecord) -> Result<(), AllocError>
    ensures { OnOk result (text.new ≡ text.old ++ lines.masks_line compartment.now) }
{
    text.put(b"writes 0x")?;
    text.put_hexadecimal(8, compartment.mask)?;
    text.put(b" reads 0x")?;
    text.put_hexadecimal(8, compartment.reads)?;
    text.put(b"\n")
}

/// Puts the lines of a compartment.
fn put_record(
    text: &mut Text,
    windows: &[Window],
    number: u64,
    compartment: &CompRecord,
) -> Result<(), AllocError>
    ensures { OnOk result (text.new ≡ text.old ++ lines.record_lines windows.now number compartment.now) }
{
    put_code(text, number, &compartment.code)?;
    put_slots(text, windows, compartment.slots.as_slice())?;
    put_masks(text, compartment)
}

/// Puts the lines of all compartments.
#[tactic(auto, unfolding(crate::specs::TableLines::compartment_lines))]
pub(crate) fn put_compartments(
    text: &mut Text,
    windows: &[Window],
    tables: &Tables,
) -> Result<(), AllocError>
    ensures { OnOk result (text.new ≡ text.old ++ lines.compartment_lines windows.now tables.now) }
{
    let compartments = tables.comps.as_slice();
    for i in 0..compartments.len() {
        put_record(text, windows, i as u64, &compartments[i])?;
    }
    Ok(())
}
