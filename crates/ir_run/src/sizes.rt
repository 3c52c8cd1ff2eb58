//! Sizes of elements.

ghost use Rattle.std.specs.Prelude.{◌≡◌, ◌≤◌, map};
ghost use Rattle.ir_model.specs.Plain.{struct_of};
ghost use Rattle.ir_model.specs.Layout.{known, shape};
ghost use Rattle.ir_model.specs.Typing.{object_limit};
ghost use Rattle.ir_program.specs.Storages.{pointee_of};

use ir_layouts::table::Layouts;
use ir_model::types::Ty;

/// The size of an element that is no larger than an object; none is u32.
pub fn element_size(layouts: &Layouts, ty: Option<&Ty>) -> u32
    requires { (shape (known (map struct_of layouts.now)) (pointee_of ty)).size ≤ object_limit }
    ensures { result ≡ (shape (known (map struct_of layouts.now)) (pointee_of ty.entry)).size }
{
    match ty {
        Some(ty) => layouts.measure(ty).size as u32,
        None => 4,
    }
}
