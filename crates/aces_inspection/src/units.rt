//! The lines of the protection unit.

ghost use Rattle.std.specs.Prelude.{◌≡◌, ◌++◌, OnOk};
ghost use Rattle.aces_inspection.specs.StateLines as lines;

use crate::words_put::{put_number, put_word};
use machine_emulator::Machine;
use machine_protection::MPU_CTRL;
use machine_protection::region::Region;
use machine_protection::unit::Mpu;
use plan_report::text::Text;
use std::alloc::AllocError;

/// Puts the line of MPU_CTRL.
#[tactic(auto, unfolding(machine_protection::specs::Registers::read_register))]
pub(crate) fn put_unit(text: &mut Text, unit: &Mpu) -> Result<(), AllocError>
    ensures { OnOk result (text.new ≡ text.old ++ lines.unit_line unit.now) }
{
    put_word(text, b"unit", unit.read(MPU_CTRL).unwrap_or(0))?;
    text.put(b"\n")
}

/// Puts the words of a region.
fn put_words(text: &mut Text, number: u8, region: &Region) -> Result<(), AllocError>
    ensures { OnOk result (text.new ≡ text.old ++ lines.enabled_line number region.now) }
{
    put_number(text, b"region ", u32::from(number))?;
    put_word(text, b"", region.rbar)?;
    put_word(text, b"", region.rasr)?;
    text.put(b"\n")
}

/// Puts the line of a region, where it is enabled.
fn put_region(text: &mut Text, number: u8, region: &Region) -> Result<(), AllocError>
    ensures { OnOk result (text.new ≡ text.old ++ lines.region_line number region.now) }
{
    if region.rasr % 2 != 1 {
        return Ok(());
    }
    put_words(text, number, region)
}

/// Puts the lines of all regions that are enabled. Selects one after the other.
#[tactic(auto, unfolding(crate::specs::StateLines::region_lines))]
pub(crate) fn put_regions(
    text: &mut Text,
    machine: &mut Machine,
    count: u8,
) -> Result<(), AllocError>
    ensures { OnOk result (text.new ≡ text.old ++ lines.region_lines count machine.old.state.protection.mpu) }
{
    for number in 0..count {
        let region = machine.region(number);
        put_region(text, number, &region)?;
    }
    Ok(())
}
