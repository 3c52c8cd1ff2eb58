//! What instructions meet.

ghost use Rattle.std.specs.Prelude.{◌≡◌, List, map, option_map};
ghost use Rattle.std.proofs.Math.ListN.{get_or};
ghost use Rattle.ir_model.specs.Layout.{Known};
ghost use Rattle.ir_model.specs.Resolved as plain;
ghost use Rattle.ir_program.specs.Parts.{operation_of};
ghost use Rattle.ir_program.specs.Seen.{program_of};
ghost use Rattle.ir_program.specs.Values.{value_of};
ghost use Rattle.ir_program.specs.declared.value.Value.TheVariants.{Number};
ghost use Rattle.aces_where.specs.Spots as spots;

use ir_program::program::{Operation, Program};
use ir_program::value::Value;
use ir_run::place::Here;
use ir_run::places::here;
use ir_run::reads::FramePlace;

/// The register by which an instruction reaches an object or a function.
fn reaching_register(operation: &Operation<'_>) -> Option<usize>
    ensures { (ks : List Known) → result ≡ spots.reaching_register (operation_of ks operation.now) }
{
    match operation {
        Operation::Elem { base, .. } => Some(*base),
        Operation::Field { base, .. } => Some(*base),
        Operation::Load { from, .. } => Some(*from),
        Operation::Store { to, .. } => Some(*to),
        Operation::ICall { func, .. } => Some(*func),
        Operation::Const { .. } => None,
        Operation::Move { .. } => None,
        Operation::Bin { .. } => None,
        Operation::Cmp { .. } => None,
        Operation::Addr { .. } => None,
        Operation::FAddr { .. } => None,
        Operation::Call { .. } => None,
    }
}

/// The value of a number; 0 where there is none.
fn value_or_zero(registers: &[Value], register: usize) -> Value
    ensures { result ≡ get_or registers.now register (Number 0) }
{
    if register < registers.len() {
        registers[register]
    } else {
        Value::Number(0)
    }
}

/// The value of a register by its number; 0 where there is none.
pub(crate) fn value_at(registers: &[Value], register: usize) -> Value
    ensures { value_of result ≡ get_or (map value_of registers.now) register (plain.Number 0) }
{
    value_or_zero(registers, register)
}

/// What an instruction of a function with these registers meets.
fn met_by(operation: &Operation<'_>, registers: &[Value]) -> Option<Value>
    ensures { (ks : List Known) → option_map value_of result ≡ spots.met_by (plain.Does (operation_of ks operation.now)) (map value_of registers.now) }
{
    match reaching_register(operation) {
        Some(register) => Some(value_at(registers, register)),
        None => None,
    }
}

/// What the instruction at which a frame with these registers stands meets.
pub(crate) fn met_value(
    program: &Program<'_>,
    spot: FramePlace,
    registers: &[Value],
) -> Option<Value>
    ensures { option_map value_of result ≡ spots.met (program_of program.now) spot (map value_of registers.now) }
{
    match here(program, spot.func, spot.block, spot.place) {
        Here::Does(operation) => met_by(operation, registers),
        Here::Ends(_) => None,
    }
}
