//! A firmware with numbers for its names.

ghost use Rattle.std.specs.Prelude.{◌≡◌, map};
ghost use Rattle.ir_model.specs.Plain.{struct_of};
ghost use Rattle.ir_model.specs.Layout.{known};
ghost use Rattle.ir_program.specs.Parts.{variable_of, routine_of, cell_count, cell_counts, global_count, local_counts};

use crate::value::Value;
use base_lists::ListVec;
use ir_layouts::table::Layouts;
use ir_model::firmware::{BinOp, CmpOp, Func};
use ir_model::types::Ty;

/// What a global or a local is made of. Its cells are those of its type.
#[derive(Clone, Copy)]
pub struct Storage<'a> {
    /// Its type.
    pub ty: &'a Ty,
    /// How many bytes it has.
    pub size: u32,
    /// How many bytes its address is a multiple of.
    pub align: u32,
    /// How many cells it has.
    pub cells: u32,
}

/// What `addr` names.
#[derive(Clone, Copy)]
pub enum Target {
    /// A global, by its number.
    Global(u32),
    /// A peripheral, by its number.
    Periph(u32),
    /// A local of the running function, by its number.
    Local(u8),
}

/// An instruction. Registers and functions have their numbers; `to` is the register that is written, but in `Store`, where
/// it is the pointer.
#[derive(Drop)]
pub enum Operation<'a> {
    /// `to = value`
    Const {
        /// The register written.
        to: usize,
        /// The number.
        value: u32,
    },
    /// `to = from`
    Move {
        /// The register written.
        to: usize,
        /// The register read.
        from: usize,
    },
    /// `to = op a, b`
    Bin {
        /// The operation.
        op: BinOp,
        /// The register written.
        to: usize,
        /// The first operand.
        a: usize,
        /// The second operand.
        b: usize,
    },
    /// `to = op a, b`: 1 or 0
    Cmp {
        /// The comparison.
        op: CmpOp,
        /// The register written.
        to: usize,
        /// The first operand.
        a: usize,
        /// The second operand.
        b: usize,
    },
    /// `to = addr of`
    Addr {
        /// The register written.
        to: usize,
        /// What is named.
        of: Target,
    },
    /// `to = faddr func`
    FAddr {
        /// The register written.
        to: usize,
        /// The function.
        func: u16,
    },
    /// `to = elem base, index`
    Elem {
        /// The register written.
        to: usize,
        /// The pointer.
        base: usize,
        /// How many elements behind it.
        index: usize,
        /// The type of an element; none is u32.
        element: Option<&'a Ty>,
    },
    /// `to = field base, field`
    Field {
        /// The register written.
        to: usize,
        /// The pointer to a struct.
        base: usize,
        /// How many bytes the field lies behind it.
        offset: u32,
    },
    /// `to = load from`
    Load {
        /// The register written.
        to: usize,
        /// The pointer.
        from: usize,
        /// The type that it points to; none is u32.
        ty: Option<&'a Ty>,
    },
    /// `store to, from`
    Store {
        /// The pointer.
        to: usize,
        /// The value.
        from: usize,
        /// The type that it points to; none is u32.
        ty: Option<&'a Ty>,
    },
    /// `to = call func ( args )`
    Call {
        /// The register written, where the result is kept.
        to: Option<usize>,
        /// The function.
        func: u16,
        /// The arguments' registers.
        args: ListVec<usize>,
    },
    /// `to = icall func ( args )`
    ICall {
        /// The register written, where the result is kept.
        to: Option<usize>,
        /// The register that holds the function.
        func: usize,
        /// The arguments' registers.
        args: ListVec<usize>,
    },
}

/// The end of a block. Blocks have their numbers in the function.
#[derive(Clone, Copy)]
pub enum Exit {
    /// `jump block`
    Jump(usize),
    /// `branch on yes no`: to `yes` where the register is not 0
    Branch {
        /// The register tested.
        on: usize,
        /// A block.
        yes: usize,
        /// A block.
        no: usize,
    },
    /// `ret`, with a register where the function has a result
    Ret(Option<usize>),
}

/// A block.
pub struct Sequence<'a> {
    /// Its instructions in order.
    pub operations: ListVec<Operation<'a>>,
    /// Its end.
    pub exit: Exit,
}

impl Drop for Sequence<'_> {
    fn drop(self) {
        let Sequence {
            operations: _,
            exit: _,
        } = self;
    }
}

/// A global.
pub struct Variable<'a> {
    /// Whether it is never written.
    pub constant: bool,
    /// What it is made of.
    pub storage: Storage<'a>,
    /// What its first cells hold at first; those behind them hold 0 or null.
    pub init: ListVec<Value>,
}

impl Drop for Variable<'_> {
    fn drop(self) {
        let Variable {
            constant: _,
            storage: _,
            init: _,
        } = self;
    }
}

/// A peripheral's window.
#[derive(Clone, Copy)]
pub struct Span {
    /// The address of its first byte.
    pub base: u32,
    /// How many bytes it has.
    pub size: u32,
}

/// A function.
pub struct Routine<'a> {
    /// The function as it was read.
    pub source: &'a Func,
    /// The types of its registers, the parameters first.
    pub registers: ListVec<&'a Ty>,
    /// What each local is made of.
    pub locals: ListVec<Storage<'a>>,
    /// Its blocks in order; it begins with the first.
    pub blocks: ListVec<Sequence<'a>>,
}

impl Drop for Routine<'_> {
    fn drop(self) {
        let Routine {
            source: _,
            registers: _,
            locals: _,
            blocks: _,
        } = self;
    }
}

/// A firmware with numbers for its names.
pub struct Program<'a> {
    /// The layouts of its structs.
    pub layouts: Layouts<'a>,
    /// Its globals in order.
    pub globals: ListVec<Variable<'a>>,
    /// Each peripheral's window.
    pub periphs: ListVec<Span>,
    /// The functions of all files in order.
    pub funcs: ListVec<Routine<'a>>,
    /// The number of each function's file.
    pub files: ListVec<u32>,
    /// The number of `main`.
    pub main: u16,
    pub ghost cells_of_globals: { map global_count globals ≡ map cell_count (map (variable_of (known (map struct_of layouts))) globals) },
    pub ghost cells_of_locals: { map local_counts funcs ≡ map cell_counts (map (routine_of (known (map struct_of layouts))) funcs) },
}

impl Drop for Program<'_> {
    fn drop(self) {
        let Program {
            layouts: _,
            globals: _,
            periphs: _,
            funcs: _,
            files: _,
            main: _,
        } = self;
    }
}
