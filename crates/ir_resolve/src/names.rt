//! The names of a firmware and of a function, with their numbers.

ghost use Rattle.std.specs.Prelude.{◌≡◌};

use base_lists::ListVec;
use ir_layouts::table::Layouts;
use ir_model::firmware::Func;
use ir_model::types::Ty;
use ir_names::Names;

/// The names of a firmware, and the layouts of its structs.
pub(crate) struct Scope<'a> {
    pub(crate) layouts: Layouts<'a>,
    pub(crate) globals: Names<'a>,
    pub(crate) periphs: Names<'a>,
    pub(crate) funcs: Names<'a>,
}

impl Drop for Scope<'_> {
    fn drop(self) {
        let Scope {
            layouts: _,
            globals: _,
            periphs: _,
            funcs: _,
        } = self;
    }
}

impl<'a> Scope<'a> {
    /// The layouts of the structs.
    pub(crate) fn into_layouts(self) -> Layouts<'a>
        ensures { result ≡ self.entry.layouts }
    {
        let Scope {
            layouts,
            globals: _,
            periphs: _,
            funcs: _,
        } = self;
        layouts
    }
}

/// The names of a function, and the types of its registers, the parameters first.
pub(crate) struct FuncNames<'a> {
    pub(crate) source: &'a Func,
    pub(crate) registers: Names<'a>,
    pub(crate) types: ListVec<&'a Ty>,
    pub(crate) locals: Names<'a>,
    pub(crate) labels: Names<'a>,
}

impl Drop for FuncNames<'_> {
    fn drop(self) {
        let FuncNames {
            source: _,
            registers: _,
            types: _,
            locals: _,
            labels: _,
        } = self;
    }
}

impl<'a> FuncNames<'a> {
    /// The types of the registers.
    pub(crate) fn into_types(self) -> ListVec<&'a Ty>
        ensures { result ≡ self.entry.types }
    {
        let FuncNames {
            source: _,
            registers: _,
            types,
            locals: _,
            labels: _,
        } = self;
        types
    }
}
