//! The lines of a bound on the stack.

ghost use Rattle.std.specs.Prelude.{◌≡◌, ◌++◌, codes, map, IfOk, OnOk};
ghost use Rattle.std.specs.Fmt.{decimal};
ghost use Rattle.machine_lines.specs.Lines.{line_feed};
ghost use Rattle.ir_model.specs.Plain.{firmware_of};
ghost use Rattle.plan_report.specs.Names as names;
ghost use Rattle.aces_stack.specs.Lines as printed;

use ir_model::firmware::Firmware;
use plan_report::naming::put_func;
use plan_report::text::Text;
use refine_stack::answer::StackAnswer;
use std::alloc::{AllocError, Global};

/// Puts the name of a function behind a space.
fn put_spaced(text: &mut Text, firmware: &Firmware, func: u32) -> Result<(), AllocError>
    ensures { OnOk result (text.new ≡ text.old ++ (codes " " ++ names.func_name (firmware_of firmware.now) func)) }
{
    text.put(b" ")?;
    put_func(text, firmware, func)
}

/// Puts the names of functions, each behind a space.
fn put_funcs(text: &mut Text, firmware: &Firmware, funcs: &[u32]) -> Result<(), AllocError>
    ensures { OnOk result (text.new ≡ text.old ++ names.spaced (map (names.func_name (firmware_of firmware.now)) funcs.now)) }
{
    for i in 0..funcs.len() {
        put_spaced(text, firmware, funcs[i])?;
    }
    Ok(())
}

/// Puts such names, and closes the line.
fn put_names(text: &mut Text, firmware: &Firmware, funcs: &[u32]) -> Result<(), AllocError>
    ensures { OnOk result (text.new ≡ text.old ++ printed.names_line (firmware_of firmware.now) funcs.now) }
{
    put_funcs(text, firmware, funcs)?;
    text.put(b"\n")
}

/// Puts the line of a cycle.
fn put_cycle(text: &mut Text, firmware: &Firmware, funcs: &[u32]) -> Result<(), AllocError>
    ensures { OnOk result (text.new ≡ text.old ++ (codes "cycle" ++ printed.names_line (firmware_of firmware.now) funcs.now)) }
{
    text.put(b"cycle")?;
    put_names(text, firmware, funcs)
}

/// Puts the lines of a bound.
fn put_bound(
    text: &mut Text,
    firmware: &Firmware,
    stack: u32,
    needed: u64,
    path: &[u32],
) -> Result<(), AllocError>
    ensures { OnOk result (text.new ≡ text.old ++ (codes "stack " ++ decimal needed ++ codes " of " ++ decimal stack ++ line_feed ++ codes "path" ++ printed.names_line (firmware_of firmware.now) path.now)) }
{
    text.put(b"stack ")?;
    text.put_decimal(needed)?;
    text.put(b" of ")?;
    text.put_decimal(u64::from(stack))?;
    text.put(b"\npath")?;
    put_names(text, firmware, path)
}

/// What is printed of an answer on a firmware's stack of this size.
///
/// # Errors
///
/// There is no memory for it.
pub fn stack_lines(
    alloc: Global,
    firmware: &Firmware,
    stack: u32,
    answer: &StackAnswer,
) -> Result<Vec<u8>, AllocError>
    ensures { IfOk result (λ text. text.items ≡ printed.stack_lines (firmware_of firmware.now) stack answer.now) }
{
    let mut text = Text::new(alloc);
    match answer {
        StackAnswer::Cycle(funcs) => put_cycle(&mut text, firmware, funcs.as_slice())?,
        StackAnswer::Bound { needed, path } => {
            put_bound(&mut text, firmware, stack, *needed, path.as_slice())?
        }
    }
    Ok(text.into_bytes())
}
