//! All lines.

ghost use Rattle.std.specs.Prelude.{◌≡◌, ◌++◌, IfOk, OnOk};
ghost use Rattle.ir_model.specs.Plain.{firmware_of};
ghost use Rattle.ir_check_details.specs.CheckLines as lines;

use crate::first_values::put_bad_init;
use crate::functions::{put_func, put_main, put_place};
use crate::peripherals::{put_overlap, put_window};
use crate::wording::{put_expected, put_found, put_found_bytes};
use ir_model::check::{CheckKind, CheckPlace};
use ir_model::firmware::Firmware;
use std::alloc::{AllocError, Global};

/// Puts the lines of types that do not fit.
fn put_types(out: &mut Vec<u8>, firmware: &Firmware, place: &CheckPlace) -> Result<(), AllocError>
    ensures { OnOk result (out.new.items ≡ out.old.items ++ lines.type_lines (firmware_of firmware.now) place.now) }
{
    match place {
        CheckPlace::Inst { func, block, inst } => put_place(out, firmware, func, block, *inst),
        CheckPlace::Func(func) => put_func(out, firmware, func),
        CheckPlace::Struct(_)
        | CheckPlace::Periph(_)
        | CheckPlace::Global(_)
        | CheckPlace::File(_)
        | CheckPlace::Whole => Ok(()),
    }
}

/// Puts the lines of a window that is none.
fn put_bad_window(
    out: &mut Vec<u8>,
    firmware: &Firmware,
    place: &CheckPlace,
) -> Result<(), AllocError>
    ensures { OnOk result (out.new.items ≡ out.old.items ++ lines.bad_window_lines (firmware_of firmware.now) place.now) }
{
    match place {
        CheckPlace::Periph(name) => put_window(out, firmware.periphs.as_slice(), name),
        CheckPlace::Inst { .. }
        | CheckPlace::Func(_)
        | CheckPlace::Struct(_)
        | CheckPlace::Global(_)
        | CheckPlace::File(_)
        | CheckPlace::Whole => Ok(()),
    }
}

/// Puts the lines of a window that lies over an earlier one.
fn put_overlap_at(
    out: &mut Vec<u8>,
    firmware: &Firmware,
    place: &CheckPlace,
) -> Result<(), AllocError>
    ensures { OnOk result (out.new.items ≡ out.old.items ++ lines.overlap_at (firmware_of firmware.now) place.now) }
{
    match place {
        CheckPlace::Periph(name) => put_overlap(out, firmware.periphs.as_slice(), name),
        CheckPlace::Inst { .. }
        | CheckPlace::Func(_)
        | CheckPlace::Struct(_)
        | CheckPlace::Global(_)
        | CheckPlace::File(_)
        | CheckPlace::Whole => Ok(()),
    }
}

/// Puts the lines of first values that do not fit.
fn put_bad_init_at(
    out: &mut Vec<u8>,
    firmware: &Firmware,
    place: &CheckPlace,
) -> Result<(), AllocError>
    ensures { OnOk result (out.new.items ≡ out.old.items ++ lines.bad_init_lines (firmware_of firmware.now) place.now) }
{
    match place {
        CheckPlace::Global(name) => put_bad_init(out, firmware, name),
        CheckPlace::Inst { .. }
        | CheckPlace::Func(_)
        | CheckPlace::Struct(_)
        | CheckPlace::Periph(_)
        | CheckPlace::File(_)
        | CheckPlace::Whole => Ok(()),
    }
}

/// Puts the lines of a frame that is too large.
fn put_frame(out: &mut Vec<u8>, bytes: u32) -> Result<(), AllocError>
    ensures { OnOk result (out.new.items ≡ out.old.items ++ lines.frame_lines bytes) }
{
    put_found_bytes(out, bytes)?;
    put_expected(out, b"at most 992 bytes")
}

/// Puts all lines.
fn put_all(
    out: &mut Vec<u8>,
    firmware: &Firmware,
    kind: &CheckKind,
    place: &CheckPlace,
) -> Result<(), AllocError>
    ensures { OnOk result (out.new.items ≡ out.old.items ++ lines.kind_lines (firmware_of firmware.now) kind.now place.now) }
{
    match kind {
        CheckKind::Unknown(name) => put_found(out, name.as_slice()),
        CheckKind::Twice(name) => put_found(out, name.as_slice()),
        CheckKind::IllTyped => put_types(out, firmware, place),
        CheckKind::NoMain => put_main(out, firmware),
        CheckKind::BadWindow => put_bad_window(out, firmware, place),
        CheckKind::WindowOverlap => put_overlap_at(out, firmware, place),
        CheckKind::BadInit => put_bad_init_at(out, firmware, place),
        CheckKind::ObjectTooLarge => put_expected(out, b"at most 65536 bytes"),
        CheckKind::FrameTooLarge { bytes } => put_frame(out, *bytes),
    }
}

/// What was found and what was expected where a check of this kind fails at this place of a firmware; no line where no more is known
/// than the check itself tells.
///
/// # Errors
///
/// Only for want of memory.
pub fn check_lines(
    alloc: Global,
    firmware: &Firmware,
    kind: &CheckKind,
    place: &CheckPlace,
) -> Result<Vec<u8>, AllocError>
    ensures { IfOk result (λ v. v.items ≡ lines.check_lines (firmware_of firmware.now) (record { kind = kind.now; place = place.now })) }
{
    let mut out = Vec::new(alloc);
    put_all(&mut out, firmware, kind, place)?;
    Ok(out)
}
