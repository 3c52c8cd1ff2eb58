//! Writing an image file.

ghost use Rattle.std.specs.Prelude.{◌≡◌, ◌<◌, ◌^◌, ◌++◌, length, All, IfOk, OnOk};
ghost use Rattle.std.specs.List.{flat_map};
ghost use Rattle.machine_devices.specs.Rules.{ObeysRules};
ghost use Rattle.machine_image.specs.Text.{is_basic, version, word_bytes, memory_bytes, place_bytes, protection_bytes, window_bytes, IsText};

use crate::fields::{BASIC_VERSION, MAGIC, PROTECTION_VERSION};
use machine_devices::image::{Image, Window};
use std::alloc::{AllocError, Global};

#[tactic(auto, unfolding(crate::specs::Text::word_bytes))]
fn put_number(out: &mut Vec<u8>, number: u32) -> Result<(), AllocError>
    ensures { OnOk result (out.new.items ≡ out.old.items ++ word_bytes number) }
{
    out.extend_from_slice(&number.to_le_bytes())
}

fn put_window(out: &mut Vec<u8>, window: &Window) -> Result<(), AllocError>
    requires { length window.now.name < 2 ^ 32 }
    ensures { OnOk result (out.new.items ≡ out.old.items ++ window_bytes window.now) }
{
    put_number(out, window.base)?;
    put_number(out, window.size)?;
    put_number(out, window.name.len() as u32)?;
    out.extend_from_slice(window.name.as_slice())
}

fn put_memories(out: &mut Vec<u8>, image: &Image) -> Result<(), AllocError>
    requires { length image.now.flash < 2 ^ 32 }
    ensures { OnOk result (out.new.items ≡ out.old.items ++ memory_bytes image.now) }
{
    put_number(out, image.flash_base)?;
    put_number(out, image.flash.len() as u32)?;
    put_number(out, image.ram_base)?;
    put_number(out, image.ram_size)
}

fn put_places(out: &mut Vec<u8>, image: &Image) -> Result<(), AllocError>
    ensures { OnOk result (out.new.items ≡ out.old.items ++ place_bytes image.now) }
{
    put_number(out, image.monitor)?;
    put_number(out, image.stack_base)?;
    put_number(out, image.stack_size)
}

fn is_basic_version(image: &Image) -> bool
    ensures { result ≡ is_basic image.now.regions image.now.closed }
{
    !image.closed && image.regions == 8
}

#[tactic(auto, unfolding(crate::specs::Text::version))]
fn version_of(image: &Image) -> u32
    ensures { result ≡ version image.now.regions image.now.closed }
{
    if is_basic_version(image) {
        BASIC_VERSION
    } else {
        PROTECTION_VERSION
    }
}

#[tactic(auto, unfolding(crate::specs::Text::protection_bytes))]
fn put_protection(out: &mut Vec<u8>, image: &Image) -> Result<(), AllocError>
    ensures { OnOk result (out.new.items ≡ out.old.items ++ protection_bytes image.now.regions image.now.closed) }
{
    if is_basic_version(image) {
        return Ok(());
    }
    put_number(out, image.regions)?;
    put_number(out, u32::from(image.closed))
}

fn put_windows(out: &mut Vec<u8>, windows: &[Window]) -> Result<(), AllocError>
    requires { All (λ w. length w.name < 2 ^ 32) windows.now }
    ensures { OnOk result (out.new.items ≡ out.old.items ++ flat_map window_bytes windows.now) }
{
    for window in windows {
        put_window(out, window)?;
    }
    Ok(())
}

/// Writes an image: the text of the image.
///
/// # Errors
///
/// Only for want of memory.
pub fn write(alloc: Global, image: &Image) -> Result<Vec<u8>, AllocError>
    requires { ObeysRules image.now }
    ensures { IfOk result (λ v. IsText image.now v.items) }
{
    let mut out = Vec::new(alloc);
    out.extend_from_slice(MAGIC)?;
    put_number(&mut out, version_of(image))?;
    put_memories(&mut out, image)?;
    put_places(&mut out, image)?;
    put_number(&mut out, image.windows.len() as u32)?;
    put_protection(&mut out, image)?;
    put_windows(&mut out, image.windows.as_slice())?;
    out.extend_from_slice(image.flash.as_slice())?;
    Ok(out)
}
