//! What types measure by the first so many structs alone: the fields of a struct are of those before it.

ghost use Rattle.std.specs.Prelude.{◌≡◌, ◌<◌, ◌≤◌, map, take, length, MatchOption, Some};
ghost use Rattle.std.specs.List.{slice_get};
ghost use Rattle.ir_model.specs.Types.{type_of};
ghost use Rattle.ir_model.specs.Plain.{struct_of};
ghost use Rattle.ir_model.specs.Layout.{known, shape, shape_named, empty};
ghost use Rattle.ir_layouts.specs.Measures.{IsMeasure};
ghost use Rattle.ir_layouts.specs.Tables.{IsLaid, IsPlaceBelow};

use crate::measure::{Measure, many, nothing, one_cell};
use crate::struct_layout::StructLayout;
use crate::table::Layouts;
use base_names::Name;
use ir_model::types::Ty;

impl<'a> Layouts<'a> {
    /// The layout of the struct of a place.
    pub fn entry(&self, place: usize) -> &StructLayout<'a>
        requires { place < length self.now }
        ensures laid { IsLaid (map struct_of (take place self.now)) result.now }
        ensures same { slice_get self.now place ≡ Some result.now.declaration.now }
    {
        &self.structs[place]
    }

    /// The place of the struct of a name among the first so many; `None` if none of them has it.
    pub fn place_below(&self, below: usize, name: &Name) -> Option<usize>
        ensures { MatchOption result (shape_named (known (map struct_of (take below self.now))) name.now ≡ empty) (IsPlaceBelow self.now below name.now) }
    {
        let place = self.names.number(name)?;
        if place < below { Some(place) } else { None }
    }

    fn measure_named(&self, below: usize, name: &Name) -> Measure
        ensures exact { IsMeasure result (shape_named (known (map struct_of (take below self.now))) name.now) }
        ensures align { (0 < result.align) × (result.align ≤ 4) }
        ensures cells { result.cells ≤ result.size }
    {
        match self.place_below(below, name) {
            None => nothing(),
            Some(place) => {
                let layout = self.entry(place);
                Measure {
                    size: u64::from(layout.size),
                    align: layout.align,
                    cells: u64::from(layout.cells),
                }
            }
        }
    }

    /// Size, alignment and number of cells of a type, by the first so many structs alone.
    pub fn measure_below(&self, below: usize, ty: &Ty) -> Measure
        ensures exact { IsMeasure result (shape (known (map struct_of (take below self.now))) (type_of ty.now)) }
        ensures align { (0 < result.align) × (result.align ≤ 4) }
        ensures cells { result.cells ≤ result.size }
    {
        match ty {
            Ty::U8 => one_cell(1),
            Ty::U16 => one_cell(2),
            Ty::U32 | Ty::Ptr(_) | Ty::Callee(_) => one_cell(4),
            Ty::Array(count, element) => many(*count, self.measure_below(below, element)),
            Ty::Named(name) => self.measure_named(below, name),
        }
    }
}
