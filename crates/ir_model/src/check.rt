//! What can be wrong with a firmware, and where.

use base_names::Name;
use std::fmt;

/// A check that fails.
#[derive(Drop, Debug)]
pub enum CheckKind {
    /// A name that nothing of the kind asked for has.
    Unknown(Name),
    /// A name that something before it has.
    Twice(Name),
    /// An instruction, a block's end or a binding whose types do not fit.
    IllTyped,
    /// There is no function `main` without parameters and result.
    NoMain,
    /// A window that is no aligned power of two in the peripherals' addresses.
    BadWindow,
    /// A window that overlaps an earlier one.
    WindowOverlap,
    /// A first value that does not fit its cell, or a cell too many.
    BadInit,
    /// A type of more than 65,536 bytes.
    ObjectTooLarge,
    /// A frame of more than 992 bytes.
    FrameTooLarge {
        /// How many bytes it would have.
        bytes: u32,
    },
}

/// Where a check fails.
#[derive(Drop, Debug)]
pub enum CheckPlace {
    /// In a struct.
    Struct(Name),
    /// In a peripheral.
    Periph(Name),
    /// In a global.
    Global(Name),
    /// In a file.
    File(Name),
    /// In a function, before its instructions.
    Func(Name),
    /// At an instruction, or at a block's end, which has the number behind the instructions.
    Inst {
        /// The function.
        func: Name,
        /// The block's label.
        block: Name,
        /// The instruction's number in the block, from 0.
        inst: u32,
    },
    /// In no single part.
    Whole,
}

impl fmt::Display for CheckKind {
    fn fmt<W: fmt::Write>(&self, f: &mut fmt::Formatter<W>) -> fmt::Result {
        match self {
            CheckKind::Unknown(name) => write!(f, "unknown {name}"),
            CheckKind::Twice(name) => write!(f, "twice {name}"),
            CheckKind::IllTyped => f.write_str("type"),
            CheckKind::NoMain => f.write_str("no main"),
            CheckKind::BadWindow => f.write_str("bad window"),
            CheckKind::WindowOverlap => f.write_str("windows overlap"),
            CheckKind::BadInit => f.write_str("bad init"),
            CheckKind::ObjectTooLarge => f.write_str("object too large"),
            CheckKind::FrameTooLarge { bytes } => write!(f, "frame of {bytes} bytes"),
        }
    }
}

impl fmt::Display for CheckPlace {
    fn fmt<W: fmt::Write>(&self, f: &mut fmt::Formatter<W>) -> fmt::Result {
        match self {
            CheckPlace::Struct(name) => write!(f, "struct {name}"),
            CheckPlace::Periph(name) => write!(f, "peripheral {name}"),
            CheckPlace::Global(name) => write!(f, "global {name}"),
            CheckPlace::File(name) => write!(f, "file {name}"),
            CheckPlace::Func(name) => write!(f, "function {name}"),
            CheckPlace::Inst { func, block, inst } => write!(
                f,
                "{func} block {block} instruction {inst}"
            ),
            CheckPlace::Whole => f.write_str("firmware"),
        }
    }
}
