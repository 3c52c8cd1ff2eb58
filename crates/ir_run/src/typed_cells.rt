//! Cells and ports by their types.

ghost use Rattle.std.specs.Prelude.{◌≡◌, ◌<◌, map};
ghost use Rattle.base_words.specs.Bytes.{cut};
ghost use Rattle.ir_model.specs.Types as types;
ghost use Rattle.ir_model.specs.Types.{type_of};
ghost use Rattle.ir_model.specs.Layout.{known, shape, cell_at};
ghost use Rattle.ir_model.specs.Plain.{struct_of};
ghost use Rattle.ir_model.specs.Step as step;
ghost use Rattle.ir_program.specs.Values.{value_of};
ghost use Rattle.ir_program.specs.Storages.{pointee_of};
ghost use Rattle.ir_run.specs.Cells.{is_port};

use ir_layouts::table::Layouts;
use ir_model::types::Ty;
use ir_program::value::Value;
use ir_types::kinds::is_integer;

/// The number of the cell at an offset of an object of a type; `ty` is the cell's type, and none is u32.
pub fn cell_number(layouts: &Layouts, object: &Ty, at: u32, ty: Option<&Ty>) -> Option<u32>
    ensures { result ≡ cell_at (shape (known (map struct_of layouts.now)) (type_of object.now)).cells at (pointee_of ty.entry) }
{
    match ty {
        Some(ty) => ir_cells::cell_number(layouts, object, at, ty),
        None => {
            let word = Ty::U32;
            ir_cells::cell_number(layouts, object, at, &word)
        }
    }
}

/// The width of an integer type in bytes; 4 for another type, and for none, which is u32.
pub fn width_of(ty: Option<&Ty>) -> u8
    ensures exact { result ≡ types.width_of (pointee_of ty.entry) }
    ensures positive { 0 < result }
{
    match ty {
        Some(ty) => match ty {
            Ty::U8 => 1,
            Ty::U16 => 2,
            Ty::U32 | Ty::Ptr(_) | Ty::Array(_, _) | Ty::Named(_) | Ty::Callee(_) => 4,
        },
        None => 4,
    }
}

// Whether a value of the type is a number; none is u32.
fn is_number(ty: Option<&Ty>) -> bool
    ensures { result ≡ types.is_integer (pointee_of ty.entry) }
{
    match ty {
        Some(ty) => is_integer(ty),
        None => true,
    }
}

/// Whether a window of a size has a cell of the type at an offset.
pub fn has_port(size: u32, at: u32, ty: Option<&Ty>) -> bool
    ensures { result ≡ is_port size at (pointee_of ty.entry) }
{
    let width = u32::from(width_of(ty));
    is_number(ty) && at % width == 0 && u64::from(at) + u64::from(width) <= u64::from(size)
}

/// The number in the low bytes of another, as many as the type is wide.
#[tactic(auto, unfolding(base_words::specs::Bytes::cut))]
pub fn cut_number(ty: Option<&Ty>, number: u32) -> u32
    ensures { result ≡ cut (types.width_of (pointee_of ty.entry)) number }
{
    match ty {
        Some(ty) => match ty {
            Ty::U8 => number % 256,
            Ty::U16 => number % 65_536,
            Ty::U32 | Ty::Ptr(_) | Ty::Array(_, _) | Ty::Named(_) | Ty::Callee(_) => number,
        },
        None => number,
    }
}

/// A value that is stored, cut to the width of its cell.
pub fn cut_value(ty: Option<&Ty>, value: Value) -> Value
    ensures { value_of result ≡ step.cut_to (pointee_of ty.entry) (value_of value) }
{
    match value {
        Value::Number(number) => {
            if is_number(ty) {
                Value::Number(cut_number(ty, number))
            } else {
                value
            }
        }
        Value::Code(_)
        | Value::Null
        | Value::AtGlobal { .. }
        | Value::AtPeriph { .. }
        | Value::AtLocal { .. } => value,
    }
}
