//! The names in a generated firmware.

ghost use Rattle.std.specs.Prelude.{◌≡◌, ◌<◌, IfOk};
ghost use Rattle.ir_generator.specs.Names as spec;

use base_names::Name;
use std::alloc::{AllocError, Global};

/// The name of a peripheral.
#[tactic(auto, using(crate::proofs::Proper::port_is_name))]
pub(crate) fn port_name(alloc: Global, number: u32) -> Result<Name, AllocError>
    requires { number < 4 }
    ensures { IfOk result (λ name. name ≡ spec.port_name number) }
{
    let text = format!(in alloc; "P{number}")?;
    Name::of(alloc, text.as_bytes())
}

/// The name of a global.
#[tactic(auto, using(crate::proofs::Proper::global_is_name))]
pub(crate) fn global_name(alloc: Global, number: u32) -> Result<Name, AllocError>
    requires { number < 200 }
    ensures { IfOk result (λ name. name ≡ spec.global_name number) }
{
    let text = format!(in alloc; "g{number}")?;
    Name::of(alloc, text.as_bytes())
}

/// The name of a function that is drawn.
#[tactic(auto, using(crate::proofs::Proper::test_is_name))]
pub(crate) fn test_name(alloc: Global, number: u32) -> Result<Name, AllocError>
    requires { number < 200 }
    ensures { IfOk result (λ name. name ≡ spec.test_name number) }
{
    let text = format!(in alloc; "t{number}")?;
    Name::of(alloc, text.as_bytes())
}

/// The name of a file of such functions.
#[tactic(auto, using(crate::proofs::Proper::file_is_name))]
pub(crate) fn file_name(alloc: Global, number: u32) -> Result<Name, AllocError>
    requires { number < 16 }
    ensures { IfOk result (λ name. name ≡ spec.file_name number) }
{
    let text = format!(in alloc; "f{number}.c")?;
    Name::of(alloc, text.as_bytes())
}
