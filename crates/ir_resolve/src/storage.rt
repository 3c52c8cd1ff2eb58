//! Sizes, alignments and numbers of cells of types.

ghost use Rattle.std.specs.Prelude.{◌≡◌, map, length};
ghost use Rattle.ir_model.specs.Types.{type_of};
ghost use Rattle.ir_model.specs.Plain.{struct_of};
ghost use Rattle.ir_model.specs.Layout.{known, shape};
ghost use Rattle.ir_program.specs.Storages.{shape_of};
ghost use Rattle.ir_resolve.specs.Scopes.{IsSmall};

use ir_layouts::table::Layouts;
use ir_model::types::Ty;
use ir_program::program::Storage;

/// What a global or a local of a type is made of.
pub(crate) fn storage<'a>(layouts: &Layouts<'a>, ty: &'a Ty) -> Storage<'a>
    requires { IsSmall (known (map struct_of layouts.now)) ty.now }
    ensures shape { shape_of (known (map struct_of layouts.now)) result ≡ shape (known (map struct_of layouts.now)) (type_of ty.now) }
    ensures cells { result.cells ≡ length (shape (known (map struct_of layouts.now)) (type_of ty.now)).cells }
{
    let measure = layouts.measure(ty);
    Storage {
        ty,
        size: measure.size as u32,
        align: measure.align,
        cells: measure.cells as u32,
    }
}
