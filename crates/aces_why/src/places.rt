//! Objects and places, as they are told.

ghost use Rattle.std.specs.Prelude.{◌≡◌, ◌++◌, OnOk};
ghost use Rattle.ir_model.specs.Plain.{firmware_of};
ghost use Rattle.aces_why.specs.Lines as lines;

use ir_model::firmware::Firmware;
use ir_model::object::ObjId;
use plan_report::naming::{put_func, put_global, put_label, put_local, put_periph};
use plan_report::text::Text;
use std::alloc::AllocError;

/// Where an instruction stands.
#[derive(Clone, Copy)]
pub(crate) struct InstPlace {
    /// The function.
    pub(crate) func: u32,
    /// The block of that function.
    pub(crate) block: u32,
    /// Its place in that block.
    pub(crate) inst: usize,
}

/// Puts the kind and the name of an object, each behind a space.
pub(crate) fn put_object(
    text: &mut Text,
    firmware: &Firmware,
    object: &ObjId,
) -> Result<(), AllocError>
    ensures { OnOk result (text.new ≡ text.old ++ lines.object_text (firmware_of firmware.now) object.now) }
{
    match *object {
        ObjId::Global(global) => {
            text.put(b" global")?;
            put_global(text, firmware, global)
        }
        ObjId::Periph(periph) => {
            text.put(b" periph")?;
            put_periph(text, firmware, periph as usize)
        }
        ObjId::Local { func, local } => {
            text.put(b" local ")?;
            put_func(text, firmware, func)?;
            text.put(b".")?;
            put_local(text, firmware, func, local)
        }
        ObjId::Func(func) => {
            text.put(b" func ")?;
            put_func(text, firmware, func)
        }
    }
}

/// Puts objects in their order.
pub(crate) fn put_objects(
    text: &mut Text,
    firmware: &Firmware,
    objects: &[ObjId],
) -> Result<(), AllocError>
    ensures { OnOk result (text.new ≡ text.old ++ lines.objects_text (firmware_of firmware.now) objects.now) }
{
    for i in 0..objects.len() {
        put_object(text, firmware, &objects[i])?;
    }
    Ok(())
}

/// Puts a function and a block of it.
pub(crate) fn put_block(
    text: &mut Text,
    firmware: &Firmware,
    func: u32,
    block: u32,
) -> Result<(), AllocError>
    ensures { OnOk result (text.new ≡ text.old ++ lines.block_text (firmware_of firmware.now) func block) }
{
    put_func(text, firmware, func)?;
    text.put(b" block ")?;
    put_label(text, firmware, func, block as usize)
}

/// Puts the place of an instruction.
pub(crate) fn put_place(
    text: &mut Text,
    firmware: &Firmware,
    place: InstPlace,
) -> Result<(), AllocError>
    ensures { OnOk result (text.new ≡ text.old ++ lines.place_text (firmware_of firmware.now) place.func place.block place.inst) }
{
    put_block(text, firmware, place.func, place.block)?;
    text.put(b" instruction ")?;
    text.put_decimal(place.inst as u64)
}
