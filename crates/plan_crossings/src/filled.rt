//! The bytes of functions that stand one behind the other.

ghost use Rattle.std.specs.Prelude.{◌≡◌, ◌≤◌, length, IfSome};
ghost use Rattle.std.proofs.Math.ListN.{take};
ghost use Rattle.code_model.specs.CompartmentCode.{members_from};
ghost use Rattle.plan_crossings.specs.Filled.{filled_total};

use ir_model::rounding::rounded_up;

/// The bytes of the functions of a compartment that stand before a number, each filled up to a multiple of four, by the compartments and the
/// bytes of all functions. `None` if they are 2^32 or more.
pub fn bytes_before(
    compartments: &[u32],
    sizes: &[u32],
    compartment: u32,
    func: usize,
) -> Option<u32>
    requires each { length compartments.now ≡ length sizes.now }
    requires inside { func ≤ length sizes.now }
    ensures { IfSome result (λ n. n ≡ filled_total sizes.now (members_from 0 (take func compartments.now) compartment)) }
{
    let mut total: u32 = 0;
    for other in 0..func {
        if compartments[other] == compartment {
            total = total.checked_add(rounded_up(sizes[other], 4)?)?;
        }
    }
    Some(total)
}
