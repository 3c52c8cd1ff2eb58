//! The types of the firmware language.

use base_lists::ListVec;
use base_names::Name;

/// A type.
#[cycle(types)]
#[derive(Drop)]
pub enum Ty {
    /// An integer of 8 bits.
    U8,
    /// An integer of 16 bits.
    U16,
    /// An integer of 32 bits.
    U32,
    /// A pointer.
    Ptr(Box<Ty>),
    /// So many elements.
    Array(u32, Box<Ty>),
    /// A struct, by its name.
    Named(Name),
    /// A function that can be called by its address.
    Callee(Signature),
}

/// Types one after another, seen as a list.
pub type Tys = ListVec<Ty>;

/// What a function takes and gives.
#[cycle(types)]
#[derive(Drop)]
pub struct Signature {
    /// The parameters' types.
    pub params: Tys,
    /// The result's type, where there is one.
    pub result: Option<Box<Ty>>,
}
