//! Firmwares from the bytes of their files.

ghost use Rattle.std.specs.Prelude.{◌≤◌, length, IfOk, IfErr};
ghost use Rattle.ir_model.specs.Plain as plain;
ghost use Rattle.aces_words.specs.Requests.{firmware_limit};
ghost use Rattle.aces_files.specs.Loads.{IsContentFailure};
ghost use Rattle.aces_firmwares.specs.Firmwares.{IsNoFirmware, IsFirmware};

use aces_files::failure::content_failure;
use aces_reports::{Failure, Fault};
use ir_check::check;
use ir_model::checked::Checked;
use std::alloc::Global;

/// The checked firmware of which these bytes of a file are the text.
pub fn firmware_of<'a>(alloc: Global, name: &'a str, bytes: &[u8]) -> Result<Checked, Failure<'a>>
    requires { length bytes.now ≤ firmware_limit }
    ensures ok { IfOk result (λ checked. IsFirmware (plain.firmware_of checked) bytes.now) }
    ensures err { IfErr result (λ e. IsContentFailure (IsNoFirmware bytes.now) name.now e) }
{
    let firmware = match ir_reader::read(alloc, bytes) {
        Ok(firmware) => firmware,
        Err(fault) => return Err(content_failure(name, Fault::Text(fault))),
    };
    match check(alloc, firmware) {
        Ok(checked) => Ok(checked),
        Err((_, fault)) => Err(content_failure(name, Fault::Check(fault))),
    }
}
