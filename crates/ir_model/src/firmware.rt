//! The parts of a firmware.

ghost use Rattle.std.specs.Prelude.{◌≡◌};

use crate::types::Ty;
use base_lists::ListVec;
use base_names::Name;

/// A name with its type: a field, a parameter, a register or a local.
pub struct Binding {
    /// Its name.
    pub name: Name,
    /// Its type.
    pub ty: Ty,
}

impl Drop for Binding {
    fn drop(self) {
        let Binding { name: _, ty: _ } = self;
    }
}

impl Binding {
    /// The name and the type by themselves.
    pub fn into_parts(self) -> (Name, Ty)
        ensures { result ≡ (self.name, self.ty) }
    {
        let Binding { name, ty } = self;
        (name, ty)
    }
}

/// A struct.
pub struct StructDecl {
    /// Its name.
    pub name: Name,
    /// Its fields in order.
    pub fields: ListVec<Binding>,
}

impl Drop for StructDecl {
    fn drop(self) {
        let StructDecl { name: _, fields: _ } = self;
    }
}

/// A peripheral.
pub struct Peripheral {
    /// Its name.
    pub name: Name,
    /// The first address of its window.
    pub base: u32,
    /// How many bytes its window has.
    pub size: u32,
}

impl Drop for Peripheral {
    fn drop(self) {
        let Peripheral {
            name: _,
            base: _,
            size: _,
        } = self;
    }
}

/// The first value of a cell.
#[derive(Drop)]
pub enum Cell {
    /// A number.
    Word(u32),
    /// A function, by its name.
    Function(Name),
    /// The address of a global or a peripheral, by its name.
    Address(Name),
}

/// A global.
pub struct Global {
    /// Its name.
    pub name: Name,
    /// Whether it is never written.
    pub constant: bool,
    /// Its type.
    pub ty: Ty,
    /// The first values of its first cells.
    pub init: ListVec<Cell>,
}

impl Drop for Global {
    fn drop(self) {
        let Global {
            name: _,
            constant: _,
            ty: _,
            init: _,
        } = self;
    }
}

/// An operation on two numbers.
#[derive(Clone, Copy)]
pub enum BinOp {
    /// The sum, modulo 2^32.
    Add,
    /// The difference, modulo 2^32.
    Sub,
    /// The product, modulo 2^32.
    Mul,
    /// The unsigned quotient; by 0 it is 0.
    Udiv,
    /// The signed quotient, rounded towards zero; by 0 it is 0.
    Sdiv,
    /// What the unsigned quotient leaves.
    Urem,
    /// What the signed quotient leaves.
    Srem,
    /// Bits of both.
    And,
    /// Bits of either.
    Or,
    /// Bits of one alone.
    Xor,
    /// Bits of the first that are not in the second.
    Bic,
    /// The first shifted left by the low byte of the second.
    Shl,
    /// The first shifted right, with zeros before it.
    Shr,
    /// The first shifted right, with its sign before it.
    Sar,
}

/// A comparison of two numbers.
#[derive(Clone, Copy)]
pub enum CmpOp {
    /// Equal.
    Eq,
    /// Not equal.
    Ne,
    /// Less, unsigned.
    Ult,
    /// Less or equal, unsigned.
    Ule,
    /// Less, signed.
    Slt,
    /// Less or equal, signed.
    Sle,
}

/// An instruction. `to` is the register that it writes, but in `Store`, where it is the pointer.
#[derive(Drop)]
pub enum Inst {
    /// `to = value`
    Const {
        /// The register written.
        to: Name,
        /// The number.
        value: u32,
    },
    /// `to = from`
    Move {
        /// The register written.
        to: Name,
        /// The register read.
        from: Name,
    },
    /// `to = op a, b`
    Bin {
        /// The operation.
        op: BinOp,
        /// The register written.
        to: Name,
        /// The first operand.
        a: Name,
        /// The second operand.
        b: Name,
    },
    /// `to = op a, b`: 1 or 0
    Cmp {
        /// The comparison.
        op: CmpOp,
        /// The register written.
        to: Name,
        /// The first operand.
        a: Name,
        /// The second operand.
        b: Name,
    },
    /// `to = addr of`
    Addr {
        /// The register written.
        to: Name,
        /// A local, a global or a peripheral.
        of: Name,
    },
    /// `to = faddr of`
    FAddr {
        /// The register written.
        to: Name,
        /// A function.
        of: Name,
    },
    /// `to = elem base, index`
    Elem {
        /// The register written.
        to: Name,
        /// The pointer.
        base: Name,
        /// How many elements behind it.
        index: Name,
    },
    /// `to = field base, field`
    Field {
        /// The register written.
        to: Name,
        /// The pointer to a struct.
        base: Name,
        /// The field's name.
        field: Name,
    },
    /// `to = load from`
    Load {
        /// The register written.
        to: Name,
        /// The pointer.
        from: Name,
    },
    /// `store to, from`
    Store {
        /// The pointer.
        to: Name,
        /// The value.
        from: Name,
    },
    /// `to = call func ( args )`
    Call {
        /// The register written, where the result is kept.
        to: Option<Name>,
        /// The function.
        func: Name,
        /// The arguments.
        args: ListVec<Name>,
    },
    /// `to = icall func ( args )`
    ICall {
        /// The register written, where the result is kept.
        to: Option<Name>,
        /// The register that holds the function.
        func: Name,
        /// The arguments.
        args: ListVec<Name>,
    },
}

/// The end of a block.
#[derive(Drop)]
pub enum Term {
    /// `jump label`
    Jump(Name),
    /// `branch on yes no`: to `yes` where the register is not 0
    Branch {
        /// The register tested.
        on: Name,
        /// A label.
        yes: Name,
        /// A label.
        no: Name,
    },
    /// `ret`, with a register where the function has a result
    Ret(Option<Name>),
}

/// A block.
pub struct Block {
    /// Its label.
    pub label: Name,
    /// Its instructions in order.
    pub insts: ListVec<Inst>,
    /// Its end.
    pub term: Term,
}

impl Drop for Block {
    fn drop(self) {
        let Block {
            label: _,
            insts: _,
            term: _,
        } = self;
    }
}

/// A function.
pub struct Func {
    /// Its name.
    pub name: Name,
    /// Its parameters in order.
    pub params: ListVec<Binding>,
    /// Its result's type, where it has one.
    pub result: Option<Ty>,
    /// Its locals in order.
    pub locals: ListVec<Binding>,
    /// Its registers in order, without the parameters.
    pub regs: ListVec<Binding>,
    /// Its blocks in order; it begins with the first.
    pub blocks: ListVec<Block>,
}

impl Drop for Func {
    fn drop(self) {
        let Func {
            name: _,
            params: _,
            result: _,
            locals: _,
            regs: _,
            blocks: _,
        } = self;
    }
}

/// A file.
pub struct FileDecl {
    /// Its name.
    pub name: Name,
    /// Its functions in order.
    pub funcs: ListVec<Func>,
}

impl Drop for FileDecl {
    fn drop(self) {
        let FileDecl { name: _, funcs: _ } = self;
    }
}

/// A firmware.
pub struct Firmware {
    /// Its structs in order.
    pub structs: ListVec<StructDecl>,
    /// Its peripherals in order.
    pub periphs: ListVec<Peripheral>,
    /// Its globals in order.
    pub globals: ListVec<Global>,
    /// Its files in order.
    pub files: ListVec<FileDecl>,
}

impl Drop for Firmware {
    fn drop(self) {
        let Firmware {
            structs: _,
            periphs: _,
            globals: _,
            files: _,
        } = self;
    }
}
