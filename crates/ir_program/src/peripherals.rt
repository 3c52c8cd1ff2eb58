//! The windows of a firmware's peripherals.

ghost use Rattle.std.specs.Prelude.{◌≡◌, map, IfOk};
ghost use Rattle.ir_program.specs.Windows.{window_of};

use base_lists::ListVec;
use ir_model::firmware::Peripheral;
use machine_devices::image::Window;
use std::alloc::{AllocError, Global};

fn window(alloc: Global, periph: &Peripheral) -> Result<Window, AllocError>
    ensures { IfOk result (λ window. window ≡ window_of periph.now) }
{
    let name = Vec::from_slice(alloc, periph.name.as_slice())?;
    Ok(Window {
        name: ListVec::new(name),
        base: periph.base,
        size: periph.size,
    })
}

/// The windows of peripherals, in order.
///
/// # Errors
///
/// There is no memory for them.
pub fn windows(alloc: Global, periphs: &[Peripheral]) -> Result<Vec<Window>, AllocError>
    ensures { IfOk result (λ windows. windows.items ≡ map window_of periphs.now) }
{
    let mut windows = Vec::new(alloc);
    for periph in periphs {
        windows.push(window(alloc, periph)?)?;
    }
    Ok(windows)
}
