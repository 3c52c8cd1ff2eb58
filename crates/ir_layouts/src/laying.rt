//! A struct is laid out field by field.

ghost use Rattle.std.specs.Prelude.{◌≡◌, ◌<◌, ◌≤◌, ◌+◌, [], map, Err, IfOk};
ghost use Rattle.ir_model.specs.Plain.{struct_of};
ghost use Rattle.ir_model.specs.Layout.{rounded_up};
ghost use Rattle.ir_layouts.specs.Measures.{IsTooLarge};
ghost use Rattle.ir_layouts.specs.Tables.{IsLaid};
ghost use Rattle.ir_layouts.specs.Laying.{IsOpen};

use crate::fault::LayoutFault;
use crate::struct_layout::{Field, StructLayout};
use crate::table::Layouts;
use ir_model::extent::SIZE_LIMIT;
use ir_model::firmware::StructDecl;
use ir_names::Names;

fn round_up(size: u32, align: u32) -> u32
    requires positive { 0 < align }
    requires align { align ≤ 4 }
    requires size { size ≤ SIZE_LIMIT }
    ensures exact { result ≡ rounded_up size align }
    ensures small { result < size + align }
{
    (size + (align - 1)) / align * align
}

/// What the fields of a struct take before it is closed.
#[derive(Clone, Copy)]
struct OpenStruct {
    size: u32,
    align: u32,
    cells: u32,
}

impl<'a> Layouts<'a> {
    fn lay_fields(
        &self,
        declaration: &'a StructDecl,
        fields: &mut Vec<Field<'a>>,
        names: &mut Names<'a>,
    ) -> Result<OpenStruct, LayoutFault>
        requires fields { fields.old.items ≡ [] }
        requires names { names.old ≡ [] }
        ensures open { IfOk result (λ e. IsOpen (map struct_of self.now) (struct_of declaration.now).fields e.size e.align e.cells fields.new.items names.new) }
        ensures too_large { result ≡ Err LayoutFault.TooLarge → IsTooLarge (map struct_of self.now) (struct_of declaration.now) }
    {
        let bindings = declaration.fields.as_slice();
        let (mut size, mut align, mut cells) = (0u32, 1u32, 0u32);
        for binding in bindings {
            let inner = self.measure(&binding.ty);
            let at = round_up(size, inner.align);
            let end = u64::from(at) + inner.size;
            if end > u64::from(SIZE_LIMIT) {
                return Err(LayoutFault::TooLarge);
            }
            fields.push(Field {
                name: &binding.name,
                ty: &binding.ty,
                at,
                first_cell: cells,
            })?;
            names.push(&binding.name)?;
            size = end as u32;
            align = align.max(inner.align);
            cells += inner.cells as u32;
        }
        Ok(OpenStruct { size, align, cells })
    }

    /// A struct, laid out by those that are there.
    pub(crate) fn laid_out(
        &self,
        declaration: &'a StructDecl,
    ) -> Result<StructLayout<'a>, LayoutFault>
        ensures laid { IfOk result (IsLaid (map struct_of self.now)) }
        ensures same { IfOk result (λ l. l.declaration.now ≡ declaration.now) }
        ensures too_large { result ≡ Err LayoutFault.TooLarge → IsTooLarge (map struct_of self.now) (struct_of declaration.now) }
    {
        let alloc = *self.structs.allocator();
        let mut fields = Vec::new(alloc);
        let mut names = Names::new(alloc);
        let open = self.lay_fields(declaration, &mut fields, &mut names)?;
        let size = round_up(open.size, open.align);
        if size > SIZE_LIMIT {
            return Err(LayoutFault::TooLarge);
        }
        Ok(StructLayout {
            declaration,
            size,
            align: open.align,
            cells: open.cells,
            fields,
            names,
        })
    }
}
