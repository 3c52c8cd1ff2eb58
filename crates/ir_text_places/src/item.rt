//! The items of a firmware, by their numbers.

/// A part of a firmware that a fault can name. Numbers count from 0.
#[derive(Clone, Copy)]
pub enum Item {
    /// The whole firmware.
    Whole,
    /// A struct.
    Struct(usize),
    /// A peripheral.
    Periph(usize),
    /// A global.
    Global(usize),
    /// A file.
    File(usize),
    /// A function by its number among those of all files.
    Func(usize),
    /// An instruction, or a block's end, which has the number behind the instructions.
    Code {
        /// The function by its number among those of all files.
        func: usize,
        /// The block of the function.
        block: usize,
        /// The instruction of the block.
        place: usize,
    },
}
