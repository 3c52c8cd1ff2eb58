//! The number of a cell by its offset.

ghost use Rattle.std.specs.Prelude.{◌≡◌, ◌≤◌, ◌∷◌, [], map, take, IfSome};
ghost use Rattle.ir_model.specs.Types.{type_of};
ghost use Rattle.ir_model.specs.Plain.{struct_of};
ghost use Rattle.ir_model.specs.Layout.{known, shape, cell_at};

use crate::halving::last_at;
use ir_layouts::table::Layouts;
use ir_model::types::Ty;
use ir_types::equal::same_type;

#[tactic(auto, unfolding(ir_model::specs::Layout::cell_at))]
fn scalar_number(ty: &Ty, at: u32, of: &Ty) -> Option<u32>
    ensures exact { result ≡ cell_at (record { at = 0; ty = type_of ty.now } ∷ []) at (type_of of.now) }
    ensures small { IfSome result (λ k. k ≤ at) }
{
    if at == 0 && same_type(ty, of) {
        Some(0)
    } else {
        None
    }
}

// The number of the cell at an offset of a type, by the first so many structs alone.
fn number_below(layouts: &Layouts, below: usize, ty: &Ty, at: u32, of: &Ty) -> Option<u32>
    ensures exact { result ≡ cell_at (shape (known (map struct_of (take below layouts.now))) (type_of ty.now)).cells at (type_of of.now) }
    ensures small { IfSome result (λ k. k ≤ at) }
{
    match ty {
        Ty::U8 | Ty::U16 | Ty::U32 | Ty::Ptr(_) | Ty::Callee(_) => scalar_number(ty, at, of),
        Ty::Array(count, element) => {
            let inner = layouts.measure_below(below, element);
            if inner.size == 0 {
                return None;
            }
            let place = u64::from(at) / inner.size;
            if place >= u64::from(*count) {
                return None;
            }
            let rest = (u64::from(at) % inner.size) as u32;
            let number = number_below(layouts, below, element, rest, of)?;
            Some((place * inner.cells) as u32 + number)
        }
        Ty::Named(name) => {
            let place = layouts.place_below(below, name)?;
            let fields = layouts.entry(place).fields.as_slice();
            let field = fields[last_at(fields, at)?];
            let number = number_below(layouts, place, field.ty, at - field.at, of)?;
            Some(field.first_cell + number)
        }
    }
}

/// The number of the cell of a type at an offset, where a cell of type `of` lies there. Goes down the type: an array's
/// element is found by division, a struct's field by halving.
pub fn cell_number(layouts: &Layouts, ty: &Ty, at: u32, of: &Ty) -> Option<u32>
    ensures exact { result ≡ cell_at (shape (known (map struct_of layouts.now)) (type_of ty.now)).cells at (type_of of.now) }
    ensures small { IfSome result (λ k. k ≤ at) }
{
    number_below(layouts, layouts.len(), ty, at, of)
}
