//! What a policy knows of each function.

ghost use Rattle.std.specs.Prelude.{◌≡◌, ◌<◌, length, IfOk};
ghost use Rattle.std.specs.List.{All};
ghost use Rattle.ir_model.specs.Plain.{firmware_of, funcs_of};
ghost use Rattle.plan_model.specs.Facts as definition;
ghost use Rattle.plan_model.specs.Needs.{need_of};
ghost use Rattle.plan_policies.specs.Functions.{AreFunctions};

use crate::callers::callers;
use crate::origins::{Origin, origins};
use base_lists::ListVec;
use ir_model::checked::Checked;
use plan_model::groups::FuncFacts;
use plan_model::needs::Needs;
use std::alloc::{AllocError, Global};

fn fact(
    alloc: Global,
    needs: &Needs,
    count: u32,
    index: u32,
    origin: &Origin,
) -> Result<FuncFacts, AllocError>
    requires count { count ≡ length needs.now.funcs }
    requires index { index < count }
    ensures { IfOk result (λ f. f ≡ record { index = index; name = origin.now.name.now; file = origin.now.file; periphs = (need_of needs.now index).periphs; callers = definition.callers_of needs.now index }) }
{
    let name = origin.name.clone()?;
    let need = &needs.funcs.as_slice()[index as usize];
    let periphs = Vec::from_slice(alloc, need.periphs.as_slice())?;
    let callers = callers(alloc, needs, count, index)?;
    Ok(FuncFacts {
        index,
        name,
        file: origin.file,
        periphs: ListVec::new(periphs),
        callers: ListVec::new(callers),
    })
}

/// What a policy knows of the functions of a firmware, in order, by what they may reach.
///
/// # Errors
///
/// There is no memory for it, or there are more functions or files than a number of 32 bits tells.
pub fn facts(alloc: Global, firmware: &Checked, needs: &Needs) -> Result<Vec<FuncFacts>, AllocError>
    requires { length needs.now.funcs ≡ length (funcs_of (firmware_of firmware.now)) }
    ensures exact { IfOk result (λ facts. facts.items ≡ definition.facts (firmware_of firmware.now) needs.now) }
    ensures functions { IfOk result (λ facts. AreFunctions facts.items) }
    ensures each { IfOk result (λ facts. length facts.items ≡ length (funcs_of (firmware_of firmware.now))) }
    ensures files { IfOk result (λ facts. All (λ f. f.file < length (firmware_of firmware.now).files) facts.items) }
{
    let origins = origins(alloc, firmware.firmware())?;
    let Ok(count) = u32::try_from(needs.funcs.len()) else {
        return Err(AllocError);
    };
    let mut facts = Vec::new(alloc);
    for index in 0..count {
        facts.push(fact(alloc, needs, count, index, &origins[index as usize])?)?;
    }
    Ok(facts)
}
