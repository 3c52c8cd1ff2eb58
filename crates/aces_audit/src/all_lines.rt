//! All lines of an image's tables.

ghost use Rattle.std.specs.Prelude.{◌≡◌, ◌++◌, IfOk, OnOk};
ghost use Rattle.aces_audit.specs.TableLines as lines;

use crate::compartments::put_compartments;
use crate::records::{put_fills, put_lents, put_sites};
use machine_devices::image::Image;
use monitor_model::Tables;
use plan_report::text::Text;
use std::alloc::{AllocError, Global};

/// Puts the line of `main`.
fn put_main(text: &mut Text, tables: &Tables) -> Result<(), AllocError>
    ensures { OnOk result (text.new ≡ text.old ++ lines.main_line tables.now) }
{
    text.put(b"main ")?;
    text.put_decimal(u64::from(tables.main_comp))?;
    text.put(b" 0x")?;
    text.put_hexadecimal(8, tables.main)?;
    text.put(b"\n")
}

/// Puts the line of the stack.
fn put_stack(text: &mut Text, tables: &Tables) -> Result<(), AllocError>
    ensures { OnOk result (text.new ≡ text.old ++ lines.stack_line tables.now) }
{
    text.put(b"stack")?;
    text.put_range(tables.stack.base, u64::from(tables.stack.size))?;
    text.put(b"\n")
}

/// Puts the line of the monitor's block.
fn put_monitor(text: &mut Text, tables: &Tables) -> Result<(), AllocError>
    ensures { OnOk result (text.new ≡ text.old ++ lines.monitor_line tables.now) }
{
    text.put(b"monitor 0x")?;
    text.put_hexadecimal(8, tables.monitor)?;
    text.put(b"\n")
}

/// Puts the lines of `main`, of the stack and of the monitor's block.
#[tactic(auto, unfolding(crate::specs::TableLines::place_lines))]
fn put_places(text: &mut Text, tables: &Tables) -> Result<(), AllocError>
    ensures { OnOk result (text.new ≡ text.old ++ lines.place_lines tables.now) }
{
    put_main(text, tables)?;
    put_stack(text, tables)?;
    put_monitor(text, tables)
}

/// Puts all lines.
fn put_all(text: &mut Text, image: &Image, tables: &Tables) -> Result<(), AllocError>
    ensures { OnOk result (text.new ≡ text.old ++ lines.table_lines image.now tables.now) }
{
    put_compartments(text, image.windows.as_slice(), tables)?;
    put_sites(text, tables)?;
    put_lents(text, tables)?;
    put_fills(text, tables)?;
    put_places(text, tables)
}

/// What the tables of an image say, line by line, with the names of its windows.
///
/// # Errors
///
/// Only for want of memory.
pub fn table_lines(alloc: Global, image: &Image, tables: &Tables) -> Result<Vec<u8>, AllocError>
    ensures { IfOk result (λ all. all.items ≡ lines.table_lines image.now tables.now) }
{
    let mut text = Text::new(alloc);
    put_all(&mut text, image, tables)?;
    Ok(text.into_bytes())
}
