//! Where functions come from: their names and their files.

ghost use Rattle.std.specs.Prelude.{◌≡◌, ◌++◌, length, map, replicate, OnOk, IfOk};
ghost use Rattle.ir_model.specs.Plain.{PlainFunc, firmware_of, funcs_of};
ghost use Rattle.ir_model.specs.Resolve as resolving;

use base_names::Name;
use ir_model::firmware::{Firmware, Func};
use std::alloc::{AllocError, Global};

/// Where a function comes from.
#[derive(Clone, Copy)]
pub(crate) struct Origin<'a> {
    /// Its name.
    pub(crate) name: &'a Name,
    /// The number of its file.
    pub(crate) file: u32,
}

fn push_origins<'a>(
    origins: &mut Vec<Origin<'a>>,
    funcs: &'a [Func],
    file: u32,
) -> Result<(), AllocError>
    ensures names { OnOk result (map (λ o. o.name.now) origins.new.items ≡ map (λ o. o.name.now) origins.old.items ++ map (λ f. f.name) funcs.now) }
    ensures files { OnOk result (map (λ o. o.file) origins.new.items ≡ map (λ o. o.file) origins.old.items ++ replicate (length funcs.now) file) }
{
    for func in funcs {
        origins.push(Origin {
            name: &func.name,
            file,
        })?;
    }
    Ok(())
}

/// Where the functions of all files come from, in order.
///
/// # Errors
///
/// There is no memory for it, or a file's number has more than 32 bits.
pub(crate) fn origins(alloc: Global, firmware: &Firmware) -> Result<Vec<Origin<'_>>, AllocError>
    ensures names { IfOk result (λ os. map (λ o. o.name.now) os.items ≡ map (λ (f : PlainFunc). f.name) (funcs_of (firmware_of firmware.now))) }
    ensures files { IfOk result (λ os. map (λ o. o.file) os.items ≡ resolving.files_from 0 (firmware_of firmware.now).files) }
{
    let files = firmware.files.as_slice();
    let mut origins = Vec::new(alloc);
    for i in 0..files.len() {
        let Ok(file) = u32::try_from(i) else {
            return Err(AllocError);
        };
        push_origins(&mut origins, files[i].funcs.as_slice(), file)?;
    }
    Ok(origins)
}
