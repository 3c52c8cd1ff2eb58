//! The lines of the monitor's code.

ghost use Rattle.std.specs.Prelude.{◌≡◌, ◌+◌, ◌++◌, IfOk, OnOk};
ghost use Rattle.monitor_steps.specs.Code.{code_length};
ghost use Rattle.monitor_program.specs.Page.{constants};
ghost use Rattle.monitor_program.specs.Svc as svc_handler;
ghost use Rattle.monitor_program.specs.MemFault as fault_handler;
ghost use Rattle.monitor_program.specs.Reset as start;
ghost use Rattle.image_symbols.specs.MonitorLines as lines;

use monitor_assembler::length_of;
use monitor_code::calls::{memfault, reset, svc};
use monitor_model::Tables;
use monitor_program::code_size::page_is_full;
use plan_report::text::Text;
use std::alloc::{AllocError, Global};

/// The sum of two numbers of bytes.
///
/// # Errors
///
/// The sum has more than 32 bits, as in no image.
pub(crate) fn sum(a: u32, b: u32) -> Result<u32, AllocError>
    ensures { IfOk result (λ n. n ≡ a + b) }
{
    match a.checked_add(b) {
        Some(sum) => Ok(sum),
        None => Err(AllocError),
    }
}

/// Puts the line of a range of addresses with its name.
pub(crate) fn put_range_line(
    text: &mut Text,
    word: &[u8],
    base: u32,
    size: u32,
    name: &[u8],
) -> Result<(), AllocError>
    ensures { OnOk result (text.new ≡ text.old ++ lines.range_line word.now base size name.now) }
{
    text.put(word)?;
    text.put_range(base, u64::from(size))?;
    text.put(b" ")?;
    text.put(name)?;
    text.put(b"\n")
}

/// Puts the lines of the monitor's code, by the bytes of its first three parts.
fn put_handlers(
    text: &mut Text,
    base: u32,
    start: u32,
    call: u32,
    fault: u32,
) -> Result<(), AllocError>
    ensures { OnOk result (text.new ≡ text.old ++ lines.handler_lines base start call fault) }
{
    let svc_at = sum(64, start)?;
    let fault_at = sum(svc_at, call)?;
    let leave_at = sum(fault_at, fault)?;
    put_range_line(text, b"monitor", sum(base, 64)?, start, b"start")?;
    put_range_line(text, b"monitor", sum(base, svc_at)?, call, b"svc")?;
    put_range_line(text, b"monitor", sum(base, fault_at)?, fault, b"memfault")?;
    put_range_line(text, b"monitor", sum(base, leave_at)?, 2, b"leave")
}

/// The bytes of start-up.
fn start_size(alloc: Global, tables: &Tables) -> Result<u32, AllocError>
    ensures { IfOk result (λ n. n ≡ code_length (start.reset (constants tables.now))) }
{
    page_is_full();
    let steps = reset(alloc, tables)?;
    Ok(length_of(&steps))
}

/// The bytes of the handler of SVC.
fn svc_size(alloc: Global, tables: &Tables) -> Result<u32, AllocError>
    ensures { IfOk result (λ n. n ≡ code_length (svc_handler.svc (constants tables.now))) }
{
    page_is_full();
    let steps = svc(alloc, tables)?;
    Ok(length_of(&steps))
}

/// The bytes of the handler of MemManage.
fn memfault_size(alloc: Global, tables: &Tables) -> Result<u32, AllocError>
    ensures { IfOk result (λ n. n ≡ code_length (fault_handler.memfault (constants tables.now))) }
{
    page_is_full();
    let steps = memfault(alloc, tables)?;
    Ok(length_of(&steps))
}

/// Puts the lines of the monitor's code.
#[tactic(auto, unfolding(crate::specs::MonitorLines::monitor_lines))]
pub(crate) fn put_monitor(alloc: Global, text: &mut Text, tables: &Tables) -> Result<(), AllocError>
    ensures { OnOk result (text.new ≡ text.old ++ lines.monitor_lines tables.now) }
{
    let start = start_size(alloc, tables)?;
    let call = svc_size(alloc, tables)?;
    let fault = memfault_size(alloc, tables)?;
    put_handlers(text, tables.base, start, call, fault)
}
