//! Peripherals.

ghost use Rattle.std.specs.Prelude.{◌≡◌, ◌∷◌, [], ◌++◌, map, IfOk, OnOk, ◌+◌, ◌<◌};
ghost use Rattle.ir_model.specs.Typing as typing;
ghost use Rattle.ir_model.specs.Typing.{periph_checks};
ghost use Rattle.ir_check_scopes.specs.Found.{Finds};
ghost use Rattle.ir_check_declarations.specs.StructParts.{periph_check};

use base_ranges::{are_apart, is_window_place, is_window_size};
use ir_check_scopes::found::require;
use ir_check_scopes::new_names::add_new;
use ir_check_scopes::{CheckFault, CheckPlaceRef};
use ir_model::check::CheckKind;
use ir_model::firmware::Peripheral;
use ir_names::Names;
use std::alloc::Global;

#[tactic(auto, using(base_ranges::proofs::Decisions::size_is_some))]
fn is_window(periph: &Peripheral) -> bool
    ensures { result ≡ typing.is_window periph.now }
{
    is_window_size(periph.size) && is_window_place(periph.base, periph.size)
}

fn is_apart(earlier: &[Peripheral], periph: &Peripheral) -> bool
    ensures { result ≡ typing.is_apart earlier.now periph.now }
{
    earlier.iter().all(|other| are_apart(other.base, other.size, periph.base, periph.size))
}

#[tactic(auto, using(ir_check_scopes::proofs::Order::checks_of_both))]
fn periph<'a>(
    seen: &mut Names<'a>,
    earlier: &[Peripheral],
    periph: &'a Peripheral,
) -> Result<(), CheckFault>
    requires { seen.old ≡ map (λ e. e.name) earlier.now }
    ensures finds { Finds (periph_check earlier.now periph.now) result }
    ensures grows { OnOk result (seen.new ≡ seen.old ++ periph.now.name ∷ []) }
{
    let spot = CheckPlaceRef::Periph(&periph.name);
    add_new(seen, &periph.name, spot)?;
    require(is_window(periph), CheckKind::BadWindow, spot)?;
    require(is_apart(earlier, periph), CheckKind::WindowOverlap, spot)?;
    Ok(())
}

/// Whether the peripherals are new, their windows fit, and none overlaps an earlier one; and their names.
pub fn periphs(alloc: Global, periphs: &[Peripheral]) -> Result<Names<'_>, CheckFault>
    ensures finds { Finds (periph_checks [] periphs.now) result }
    ensures all { IfOk result (λ n. n ≡ map (λ q. q.name) periphs.now) }
{
    let mut seen = Names::new(alloc);
    for i in 0..periphs.len() {
        periph(&mut seen, &periphs[..i], &periphs[i])?;
    }
    Ok(seen)
}
