//! The values of registers.

ghost use Rattle.std.specs.Prelude.{◌≡◌, ◌++◌, OnOk};
ghost use Rattle.ir_model.specs.Plain.{firmware_of};
ghost use Rattle.ir_program.specs.Values.{value_of};
ghost use Rattle.aces_where.specs.Values as values;

use ir_model::firmware::Firmware;
use ir_program::value::Value;
use plan_report::naming::{put_func, put_global, put_local, put_periph};
use plan_report::text::Text;
use std::alloc::AllocError;

/// The first offset that four hexadecimal digits do not tell.
const WIDE: u32 = 65_536;

/// How many digits an offset in a peripheral's window has.
fn port_digits(offset: u32) -> u8
    ensures { result ≡ values.port_digits offset }
{
    if offset < WIDE { 4 } else { 8 }
}

/// Puts an offset in a peripheral's window.
fn put_port(text: &mut Text, offset: u32) -> Result<(), AllocError>
    ensures { OnOk result (text.new ≡ text.old ++ values.port_text offset) }
{
    text.put(b" 0x")?;
    text.put_hexadecimal(port_digits(offset), offset)
}

/// Puts an offset in a global or a local.
fn put_behind(text: &mut Text, offset: u32) -> Result<(), AllocError>
    ensures { OnOk result (text.new ≡ text.old ++ values.behind_text offset) }
{
    text.put(b" ")?;
    text.put_decimal(u64::from(offset))
}

/// Puts the address of a global's byte.
fn put_in_global(
    text: &mut Text,
    firmware: &Firmware,
    global: u32,
    offset: u32,
) -> Result<(), AllocError>
    ensures { OnOk result (text.new ≡ text.old ++ values.global_text (firmware_of firmware.now) global offset) }
{
    text.put(b" global")?;
    put_global(text, firmware, global)?;
    put_behind(text, offset)
}

/// Puts the address of a peripheral's byte.
fn put_in_periph(
    text: &mut Text,
    firmware: &Firmware,
    periph: u32,
    offset: u32,
) -> Result<(), AllocError>
    ensures { OnOk result (text.new ≡ text.old ++ values.periph_text (firmware_of firmware.now) periph offset) }
{
    text.put(b" periph")?;
    put_periph(text, firmware, periph as usize)?;
    put_port(text, offset)
}

/// Puts the address of a byte of a function's local, of whatever frame.
fn put_in_local(
    text: &mut Text,
    firmware: &Firmware,
    func: u16,
    local: u8,
    offset: u32,
) -> Result<(), AllocError>
    ensures { OnOk result (text.new ≡ text.old ++ values.local_text (firmware_of firmware.now) func local offset) }
{
    text.put(b" local ")?;
    put_func(text, firmware, u32::from(func))?;
    text.put(b".")?;
    put_local(text, firmware, u32::from(func), u32::from(local))?;
    put_behind(text, offset)
}

/// Puts the value of a register.
pub(crate) fn put_value(
    text: &mut Text,
    firmware: &Firmware,
    value: Value,
) -> Result<(), AllocError>
    ensures { OnOk result (text.new ≡ text.old ++ values.value_text (firmware_of firmware.now) (value_of value)) }
{
    match value {
        Value::Number(number) => {
            text.put(b" 0x")?;
            text.put_hexadecimal(8, number)
        }
        Value::Null => text.put(b" null"),
        Value::Code(func) => {
            text.put(b" func ")?;
            put_func(text, firmware, u32::from(func))
        }
        Value::AtGlobal { global, offset } => put_in_global(text, firmware, global, offset),
        Value::AtPeriph { periph, offset } => put_in_periph(text, firmware, periph, offset),
        Value::AtLocal {
            local,
            func,
            offset,
            frame: _,
        } => put_in_local(text, firmware, func, local, offset),
    }
}
