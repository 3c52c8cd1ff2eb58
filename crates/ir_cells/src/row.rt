//! The types of cells in order.

ghost use Rattle.std.specs.Prelude.{◌≡◌, ◌≤◌, ◌++◌, map, take, length, OnOk};
ghost use Rattle.ir_model.specs.Types.{type_of};
ghost use Rattle.ir_model.specs.Plain.{struct_of};
ghost use Rattle.ir_model.specs.Layout.{known, shape};
ghost use Rattle.ir_cells.specs.Cells.{lent_types, types_of};

use ir_layouts::table::Layouts;
use ir_model::types::Ty;
use std::alloc::AllocError;

// Puts the types of a type's cells, by the first so many structs alone, behind others, until there are `most`.
fn put_types_below<'a>(
    layouts: &Layouts<'a>,
    below: usize,
    ty: &'a Ty,
    most: usize,
    types: &mut Vec<&'a Ty>,
) -> Result<(), AllocError>
    requires { length types.old.items ≤ most }
    ensures { OnOk result (lent_types types.new.items ≡ take most (lent_types types.old.items ++ types_of (shape (known (map struct_of (take below layouts.now))) (type_of ty.now)).cells)) }
{
    match ty {
        Ty::U8 | Ty::U16 | Ty::U32 | Ty::Ptr(_) | Ty::Callee(_) => {
            if types.len() < most {
                types.push(ty)?;
            }
            Ok(())
        }
        Ty::Array(count, element) => {
            if layouts.measure_below(below, element).cells == 0 {
                return Ok(());
            }
            for _done in 0..*count {
                if types.len() == most {
                    return Ok(());
                }
                put_types_below(layouts, below, element, most, types)?;
            }
            Ok(())
        }
        Ty::Named(name) => {
            let Some(place) = layouts.place_below(below, name) else {
                return Ok(());
            };
            for field in layouts.entry(place).fields.as_slice() {
                if types.len() == most {
                    return Ok(());
                }
                put_types_below(layouts, place, field.ty, most, types)?;
            }
            Ok(())
        }
    }
}

/// Puts the types of a type's cells in order behind others, until there are `most` in all.
///
/// # Errors
///
/// There is no memory for them; some of the types may then have been put.
pub fn put_cell_types<'a>(
    layouts: &Layouts<'a>,
    ty: &'a Ty,
    most: usize,
    types: &mut Vec<&'a Ty>,
) -> Result<(), AllocError>
    requires { length types.old.items ≤ most }
    ensures { OnOk result (lent_types types.new.items ≡ take most (lent_types types.old.items ++ types_of (shape (known (map struct_of layouts.now)) (type_of ty.now)).cells)) }
{
    put_types_below(layouts, layouts.len(), ty, most, types)
}
