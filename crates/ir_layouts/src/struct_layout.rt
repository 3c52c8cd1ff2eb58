//! A struct that is laid out, and its fields.

ghost use Rattle.std.specs.Prelude.{◌≡◌, map};
ghost use Rattle.ir_model.specs.Layout.{FieldPlace};
ghost use Rattle.ir_layouts.specs.Fields.{place_of};

use base_names::Name;
use ir_model::firmware::StructDecl;
use ir_model::types::Ty;
use ir_names::Names;

/// A field of a struct that is laid out.
#[derive(Clone, Copy)]
pub struct Field<'a> {
    /// Its name.
    pub name: &'a Name,
    /// Its type.
    pub ty: &'a Ty,
    /// How many bytes it lies behind the struct's first.
    pub at: u32,
    /// How many cells of the struct lie before its first.
    pub first_cell: u32,
}

/// A struct that is laid out.
pub struct StructLayout<'a> {
    /// Its declaration.
    pub declaration: &'a StructDecl,
    /// The size in bytes.
    pub size: u32,
    /// The alignment in bytes: 1, 2 or 4.
    pub align: u32,
    /// How many cells it has.
    pub cells: u32,
    /// Its fields in order.
    pub fields: Vec<Field<'a>>,
    /// The names of its fields in order.
    pub names: Names<'a>,
    pub ghost all_names: { names ≡ map (λ (f : FieldPlace). f.name) (map place_of fields.items) },
}

impl Drop for StructLayout<'_> {
    fn drop(self) {
        let StructLayout {
            declaration: _,
            size: _,
            align: _,
            cells: _,
            fields: _,
            names: _,
        } = self;
    }
}
