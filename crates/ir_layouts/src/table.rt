//! The table of the structs of a firmware.

ghost use Rattle.std.specs.Prelude.{◌≡◌, ◌+◌, ◌<◌, ◌≤◌, [], ◌∷◌, ◌++◌, ◌-◌, map, length, take, IfOk, OnOk, OnErr, MatchOption, option_map, Some, None};
ghost use Rattle.ir_model.specs.Types.{type_of};
ghost use Rattle.ir_model.specs.Plain.{struct_of};
ghost use Rattle.ir_model.specs.Layout.{known, shape, fields_named};
ghost use Rattle.ir_model.specs.Resolve.{offset_named};
ghost use Rattle.ir_model.specs.Rules.{field_type};
ghost use Rattle.ir_layouts.specs.Measures.{IsMeasure, IsTooLarge, struct_shape};
ghost use Rattle.ir_model.specs.declared.extent.TheConstants.{SIZE_LIMIT};
ghost use Rattle.ir_layouts.specs.Fields.{place_of, place_named};
ghost use Rattle.ir_layouts.specs.Tables.{HasTooLarge, IsLaid};

use crate::fault::LayoutFault;
use crate::measure::Measure;
use crate::struct_layout::{Field, StructLayout};
use base_names::Name;
use ir_model::firmware::StructDecl;
use ir_model::types::Ty;
use ir_names::Names;
use std::alloc::{AllocError, Global};
use std::marker::Model;

/// The layouts of structs, seen as the list of these structs. Each is laid out by the earlier ones. Of several structs with
/// one name the name means the first, and an absent struct has no bytes.
pub struct Layouts<'a> {
    pub(crate) names: Names<'a>,
    pub(crate) structs: Vec<StructLayout<'a>>,
}

impl Drop for Layouts<'_> {
    fn drop(self) {
        let Layouts {
            names: _,
            structs: _,
        } = self;
    }
}

impl<'a> Model for Layouts<'a> {
    ghost use Rattle.std.specs.Prelude.{List, map};
    ghost use Rattle.std.specs.Coded.{codes};
    ghost use Rattle.ir_model.specs.declared.firmware.StructDecl.{StructDecl as Declaration};
    ghost use Rattle.ir_model.specs.contracts.types.Ty as types;
    ghost use Rattle.ir_layouts.specs.Tables.{AreLaid};

    ghost Value = { List Declaration };

    ghost coded = { Prim.hlevel (codes, types.the_row.coded) };

    ghost view = { λ l. map (λ s. s.declaration.now) l.structs.items };

    ghost invariant = { λ l. AreLaid l.names l.structs.items };
}

fn field_in<'a>(layout: &StructLayout<'a>, field: &Name) -> Option<Field<'a>>
    ensures { option_map place_of result ≡ place_named (map place_of layout.now.fields.items) field.now }
{
    match layout.names.number(field) {
        None => None,
        Some(number) => Some(layout.fields[number]),
    }
}

fn put_name<'a>(
    names: &mut Names<'a>,
    structs: &mut Vec<StructLayout<'a>>,
    name: &'a Name,
) -> Result<(), AllocError>
    ensures grows { OnOk result (names.new ≡ names.old ++ name.now ∷ []) }
    ensures all { OnOk result (structs.new.items ≡ structs.old.items) }
    ensures kept { OnErr result (names.new ≡ names.old) }
    ensures rest { OnErr result (structs.new.items ≡ take (length structs.old.items - 1) structs.old.items) }
{
    match names.push(name) {
        Ok(()) => Ok(()),
        Err(error) => {
            structs.pop();
            Err(error)
        }
    }
}

impl<'a> Layouts<'a> {
    /// No structs.
    pub fn new(alloc: Global) -> Layouts<'a>
        ensures { result ≡ [] }
    {
        Layouts {
            names: Names::new(alloc),
            structs: Vec::new(alloc),
        }
    }

    /// Lays a struct out by those that are there, and puts it behind them.
    ///
    /// # Errors
    ///
    /// It has more than 65,536 bytes, or there is no memory; the structs then stay as they were.
    pub fn push(&mut self, declaration: &'a StructDecl) -> Result<(), LayoutFault>
        ensures grows { OnOk result (self.new ≡ self.old ++ declaration.now ∷ []) }
        ensures fits { OnOk result ((struct_shape (map struct_of self.old) (struct_of declaration.now)).size ≤ SIZE_LIMIT) }
        ensures too_large { result ≡ Err LayoutFault.TooLarge → IsTooLarge (map struct_of self.old) (struct_of declaration.now) }
        ensures kept { OnErr result (self.new ≡ self.old) }
    {
        let next = self.laid_out(declaration)?;
        self.put(next)?;
        Ok(())
    }

    fn put(&mut self, next: StructLayout<'a>) -> Result<(), AllocError>
        requires { IsLaid (map struct_of self.old) next }
        ensures grows { OnOk result (self.new ≡ self.old ++ next.entry.declaration.now ∷ []) }
        ensures kept { OnErr result (self.new ≡ self.old) }
    {
        let name = &next.declaration.name;
        self.structs.push(next)?;
        put_name(&mut self.names, &mut self.structs, name)?;
        Ok(())
    }

    /// The layouts of structs in order.
    ///
    /// # Errors
    ///
    /// One has more than 65,536 bytes, or there is no memory.
    pub fn of(alloc: Global, structs: &'a [StructDecl]) -> Result<Layouts<'a>, LayoutFault>
        ensures all { IfOk result (λ l. l ≡ structs.now) }
        ensures too_large { result ≡ Err LayoutFault.TooLarge → HasTooLarge [] (map struct_of structs.now) }
    {
        let mut layouts = Layouts::new(alloc);
        layouts.push_all(structs)?;
        Ok(layouts)
    }

    fn push_all(&mut self, structs: &'a [StructDecl]) -> Result<(), LayoutFault>
        requires { self.old ≡ [] }
        ensures all { OnOk result (self.new ≡ structs.now) }
        ensures too_large { result ≡ Err LayoutFault.TooLarge → HasTooLarge [] (map struct_of structs.now) }
    {
        for declaration in structs {
            self.push(declaration)?;
        }
        Ok(())
    }

    /// The names of the structs.
    pub fn names(&self) -> &Names<'a>
        ensures { result.now ≡ map (λ s. s.name) self.now }
    {
        &self.names
    }

    /// How many structs there are.
    pub fn len(&self) -> usize
        ensures { result ≡ length self.now }
    {
        self.structs.len()
    }

    /// Size, alignment and number of cells of a type.
    pub fn measure(&self, ty: &Ty) -> Measure
        ensures exact { IsMeasure result (shape (known (map struct_of self.now)) (type_of ty.now)) }
        ensures align { (0 < result.align) × (result.align ≤ 4) }
        ensures cells { result.cells ≤ result.size }
    {
        self.measure_below(self.len(), ty)
    }

    /// A field of a struct by their names, as the firmware's definition has it; `None` if there is none.
    pub fn field(&self, of: &Name, field: &Name) -> Option<Field<'a>>
        ensures place { option_map place_of result ≡ place_named (fields_named (known (map struct_of self.now)) of.now) field.now }
        ensures offset { MatchOption result (offset_named (fields_named (known (map struct_of self.now)) of.now) field.now ≡ 0) (λ f. offset_named (fields_named (known (map struct_of self.now)) of.now) field.now ≡ f.at) }
        ensures ty { MatchOption result (field_type (fields_named (known (map struct_of self.now)) of.now) field.now ≡ None) (λ f. field_type (fields_named (known (map struct_of self.now)) of.now) field.now ≡ Some (type_of f.ty.now)) }
    {
        self.field_named(of, field)
    }

    fn field_named(&self, of: &Name, field: &Name) -> Option<Field<'a>>
        ensures { option_map place_of result ≡ place_named (fields_named (known (map struct_of self.now)) of.now) field.now }
    {
        match self.layout_named(of) {
            None => None,
            Some(layout) => field_in(layout, field),
        }
    }

    fn layout_named(&self, of: &Name) -> Option<&StructLayout<'a>>
        ensures { MatchOption result (fields_named (known (map struct_of self.now)) of.now ≡ []) (λ l. fields_named (known (map struct_of self.now)) of.now ≡ map place_of l.now.fields.items) }
    {
        match self.names.number(of) {
            None => None,
            Some(place) => Some(&self.structs[place]),
        }
    }
}
