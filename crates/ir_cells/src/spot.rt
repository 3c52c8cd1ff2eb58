//! The cell of a number.

ghost use Rattle.std.specs.Prelude.{◌≡◌, ◌≤◌, map, take, length, MatchOption, Some};
ghost use Rattle.std.specs.List.{slice_get};
ghost use Rattle.ir_model.specs.declared.extent.TheConstants.{SIZE_LIMIT as LIMIT};
ghost use Rattle.ir_model.specs.Types.{type_of};
ghost use Rattle.ir_model.specs.Plain.{struct_of};
ghost use Rattle.ir_model.specs.Layout.{known, shape};
ghost use Rattle.ir_cells.specs.Cells.{cell_of};

use crate::halving::last_cell;
use ir_layouts::table::Layouts;
use ir_model::types::Ty;

/// A cell: a place of a type that holds one value.
#[derive(Clone, Copy)]
pub struct CellSpot<'a> {
    /// How many bytes it lies behind the type's first.
    pub at: u32,
    /// Its type.
    pub ty: &'a Ty,
}

// The cell of a number of a type, by the first so many structs alone.
fn cell_below<'a>(
    layouts: &Layouts<'a>,
    below: usize,
    ty: &'a Ty,
    number: u32,
) -> Option<CellSpot<'a>>
    requires { (shape (known (map struct_of (take below layouts.now))) (type_of ty.now)).size ≤ LIMIT }
    ensures { MatchOption result (length (shape (known (map struct_of (take below layouts.now))) (type_of ty.now)).cells ≤ number) (λ c. slice_get (shape (known (map struct_of (take below layouts.now))) (type_of ty.now)).cells number ≡ Some (cell_of c)) }
{
    match ty {
        Ty::U8 | Ty::U16 | Ty::U32 | Ty::Ptr(_) | Ty::Callee(_) => {
            if number == 0 {
                Some(CellSpot { at: 0, ty })
            } else {
                None
            }
        }
        Ty::Array(count, element) => {
            let inner = layouts.measure_below(below, element);
            if inner.cells == 0 {
                return None;
            }
            let place = u64::from(number) / inner.cells;
            if place >= u64::from(*count) {
                return None;
            }
            let rest = (u64::from(number) % inner.cells) as u32;
            let cell = cell_below(layouts, below, element, rest)?;
            Some(CellSpot {
                at: (place * inner.size) as u32 + cell.at,
                ty: cell.ty,
            })
        }
        Ty::Named(name) => {
            let place = layouts.place_below(below, name)?;
            let fields = layouts.entry(place).fields.as_slice();
            let field = fields[last_cell(fields, number)?];
            let cell = cell_below(layouts, place, field.ty, number - field.first_cell)?;
            Some(CellSpot {
                at: field.at + cell.at,
                ty: cell.ty,
            })
        }
    }
}

/// The cell of a number of a type of at most 65,536 bytes, or `None` where the type has no more cells than that number.
/// Goes down the type as `cell_number` does.
pub fn cell<'a>(layouts: &Layouts<'a>, ty: &'a Ty, number: u32) -> Option<CellSpot<'a>>
    requires { (shape (known (map struct_of layouts.now)) (type_of ty.now)).size ≤ LIMIT }
    ensures { MatchOption result (length (shape (known (map struct_of layouts.now)) (type_of ty.now)).cells ≤ number) (λ c. slice_get (shape (known (map struct_of layouts.now)) (type_of ty.now)).cells number ≡ Some (cell_of c)) }
{
    cell_below(layouts, layouts.len(), ty, number)
}
