//! The compartments of a firmware, by what its functions need.

ghost use Rattle.std.specs.Prelude.{◌≡◌, ◌<◌, length, get_or, nat_lt, IfOk};
ghost use Rattle.std.specs.List.{list_all};
ghost use Rattle.ir_model.specs.Plain.{firmware_of, funcs_of};
ghost use Rattle.ir_model.specs.Resolve.{resolve};
ghost use Rattle.ir_model.specs.TextLimits.{function_limit};
ghost use Rattle.plan_model.specs.Compartments.{AreCompartments, compartments};
ghost use Rattle.plan_policies.specs.Functions.{AreFunctions};
ghost use Rattle.plan_compartments.specs.Divisions as divisions;

use ir_model::checked::Checked;
use ir_model::text_limits::FUNCTION_LIMIT;
use plan_model::Policy;
use plan_model::groups::{FuncFacts, Groups};
use plan_model::needs::Needs;
use plan_policies::facts::facts;
use plan_policies::grouping::{Grouping, groups};
use plan_policies::policies::{filename_groups, optimized_groups, peripheral_groups};
use std::alloc::{AllocError, Global};

/// More than the number of any group, and as many functions as there may be.
const MOST: u32 = FUNCTION_LIMIT as u32;

/// The group of each function by a policy.
fn groups_by_policy(
    alloc: Global,
    facts: &[FuncFacts],
    policy: Policy,
) -> Result<Vec<u32>, AllocError>
    requires { AreFunctions facts.now }
    ensures { IfOk result (λ groups. groups.items ≡ divisions.groups_by policy facts.now) }
{
    match policy {
        Policy::Filename => filename_groups(alloc, facts),
        Policy::Optimized => optimized_groups(alloc, facts),
        Policy::Peripheral => peripheral_groups(alloc, facts),
    }
}

/// Whether each number is that of a group.
fn are_groups(numbers: &[u32]) -> bool
    ensures { result ≡ list_all (λ g. nat_lt g function_limit) numbers.now }
{
    numbers.iter().all(|group| *group < MOST)
}

/// The compartments that the numbers of their groups make of functions.
///
/// # Errors
///
/// There is no memory for them, or functions or groups are more than those of any firmware.
fn compartments_of(
    alloc: Global,
    numbers: &[u32],
    facts: &[FuncFacts],
) -> Result<Groups, AllocError>
    requires { AreFunctions facts.now }
    ensures { IfOk result (λ made. made ≡ compartments numbers.now) }
{
    let count = facts.len();
    if count == 0 || count > MOST as usize || numbers.len() != count || !are_groups(numbers) {
        return Err(AllocError);
    }
    let by_numbers = |facts: &FuncFacts| -> u32
        requires { facts.now.index < length numbers.now }
        ensures { result ≡ get_or numbers.entry.now facts.now.index 0 }
    { numbers[facts.index as usize] };
    let grouping = Grouping::new(by_numbers, count as u32, MOST);
    let made = groups(alloc, &grouping, facts);
    let Grouping {
        callback: _callback,
        functions: _functions,
        count: _count,
    } = grouping;
    made
}

/// The compartments of a firmware by a policy and its functions' needs.
///
/// # Errors
///
/// There is no memory for them.
pub fn division(
    alloc: Global,
    firmware: &Checked,
    needs: &Needs,
    policy: Policy,
) -> Result<Groups, AllocError>
    requires { length needs.now.funcs ≡ length (funcs_of (firmware_of firmware.now)) }
    ensures by { IfOk result (λ groups. groups ≡ divisions.division policy (firmware_of firmware.now) needs.now) }
    ensures are { IfOk result (AreCompartments (resolve (firmware_of firmware.now))) }
{
    let facts = facts(alloc, firmware, needs)?;
    let numbers = groups_by_policy(alloc, facts.as_slice(), policy)?;
    let made = compartments_of(alloc, numbers.as_slice(), facts.as_slice())?;
    Ok(made)
}
