//! The lines of peripherals.

ghost use Rattle.std.specs.Prelude.{◌≡◌, ◌++◌, option_map, Some, OnOk};
ghost use Rattle.std.specs.Borrow.{Bor};
ghost use Rattle.ir_model.specs.declared.firmware.Peripheral.{Peripheral as PlainPeripheral};
ghost use Rattle.ir_check_details.specs.Found as found;
ghost use Rattle.ir_check_details.specs.Peripherals as peripherals;

use crate::lookup::periph_named;
use crate::wording::{put, put_decimal, put_expected, put_hexadecimal};
use base_names::Name;
use base_ranges::{are_apart, is_window_size};
use ir_model::firmware::Peripheral;
use std::alloc::AllocError;

/// Puts the lines of a size that no window has.
fn put_size(out: &mut Vec<u8>, size: u32) -> Result<(), AllocError>
    ensures { OnOk result (out.new.items ≡ out.old.items ++ peripherals.size_lines size) }
{
    put(out, b"found size ")?;
    put_decimal(out, size)?;
    put(out, b"\n")?;
    put_expected(out, b"a power of two from 32 to 65536")
}

/// Puts the lines of a base at which no window of this size begins.
fn put_base(out: &mut Vec<u8>, base: u32, size: u32) -> Result<(), AllocError>
    ensures { OnOk result (out.new.items ≡ out.old.items ++ peripherals.base_lines base size) }
{
    put(out, b"found base 0x")?;
    put_hexadecimal(out, 8, base)?;
    put(out, b"\n")?;
    put(out, b"expected a multiple of ")?;
    put_decimal(out, size)?;
    put(out, b" from 0x40000000 to 0x5fffffff")?;
    put(out, b"\n")
}

/// Puts the lines of the peripheral of a name, whose window is none.
pub(crate) fn put_window(
    out: &mut Vec<u8>,
    periphs: &[Peripheral],
    name: &Name,
) -> Result<(), AllocError>
    ensures { OnOk result (out.new.items ≡ out.old.items ++ peripherals.window_lines (found.periph_named periphs.now name.now)) }
{
    match periph_named(periphs, name.as_slice()) {
        None => Ok(()),
        Some(periph) => {
            if is_window_size(periph.size) {
                put_base(out, periph.base, periph.size)
            } else {
                put_size(out, periph.size)
            }
        }
    }
}

/// The first peripheral before that of a name that is not apart from a window.
fn overlapped<'s>(
    periphs: &'s [Peripheral],
    name: &Name,
    base: u32,
    size: u32,
) -> Option<&'s Peripheral>
    ensures { option_map (λ (q : Bor PlainPeripheral). q.now) result ≡ peripherals.overlapped periphs.now name.now base size }
{
    match periphs {
        [] => None,
        [periph, more @ ..] => {
            if periph.name.same(name) {
                return None;
            }
            if are_apart(periph.base, periph.size, base, size) {
                overlapped(more, name, base, size)
            } else {
                Some(periph)
            }
        }
    }
}

/// Puts the lines of a peripheral over which a window lies.
fn put_shared(out: &mut Vec<u8>, periph: &Peripheral) -> Result<(), AllocError>
    ensures { OnOk result (out.new.items ≡ out.old.items ++ peripherals.shared_lines (Some periph.now)) }
{
    put(out, b"found ")?;
    put(out, periph.name.as_slice())?;
    put(out, b" 0x")?;
    put_hexadecimal(out, 8, periph.base)?;
    put(out, b" ")?;
    put_decimal(out, periph.size)?;
    put(out, b"\n")?;
    put_expected(out, b"no bytes of another peripheral")
}

/// Puts the lines of the peripheral over which the window of a name lies.
pub(crate) fn put_overlap(
    out: &mut Vec<u8>,
    periphs: &[Peripheral],
    name: &Name,
) -> Result<(), AllocError>
    ensures { OnOk result (out.new.items ≡ out.old.items ++ peripherals.overlap_lines periphs.now name.now (found.periph_named periphs.now name.now)) }
{
    let Some(periph) = periph_named(periphs, name.as_slice()) else {
        return Ok(());
    };
    match overlapped(periphs, name, periph.base, periph.size) {
        None => Ok(()),
        Some(earlier) => put_shared(out, earlier),
    }
}
