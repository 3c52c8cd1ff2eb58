//! The recorded input of a generated firmware.

ghost use Rattle.std.specs.Prelude.{◌≡◌, ◌<◌, ◌≤◌, ◌*◌, IfOk};
ghost use Rattle.ir_generator.specs.Draws.{state_after};
ghost use Rattle.ir_generator.specs.Taped.{taped};

use crate::draws::Draws;
use machine_devices::tape::Tape;
use std::alloc::{AllocError, Global};

/// The peripherals of a generated firmware.
const PORTS: u32 = 4;

/// The words of the first peripheral.
const WORDS: u32 = 4;

/// The generator behind the draws for the functions.
fn behind_choices(seed: u32, size: u32) -> Draws
    requires { size ≤ 200 }
    ensures { result ≡ state_after seed (2 * size) }
{
    let mut draws = Draws::new(seed);
    for _number in 0..2 * size {
        draws.draw(1);
    }
    draws
}

/// The recorded input of the firmware of a seed and a size, which has 1 to 200 functions that are drawn.
/// Fails only for want of memory.
pub fn tape(alloc: Global, seed: u32, size: u32) -> Result<Tape, AllocError>
    requires { size ≤ 200 }
    ensures { IfOk result (λ tape. tape ≡ taped seed size) }
{
    let mut draws = behind_choices(seed, size);
    let mut tape = Tape::empty(alloc, PORTS)?;
    for _word in 0..WORDS {
        tape.push(0, draws.draw(65536))?;
    }
    Ok(tape)
}
