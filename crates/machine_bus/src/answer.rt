//! The bus's answers.

/// What a load from the bus gives.
#[derive(Clone, Copy, PartialEq, Eq)]
pub enum Loaded {
    /// The value in flash or RAM.
    Value(u32),
    /// The next recorded word of a window, cut to the width.
    Device {
        /// The number of the window.
        periph: u32,
        /// How many bytes behind its base.
        offset: u32,
        /// The value.
        value: u32,
    },
    /// The window has no recorded word left.
    NoInput,
    /// Nothing lies there.
    Unmapped,
}

/// What a store to the bus gives.
#[derive(Clone, Copy, PartialEq, Eq)]
pub enum Stored {
    /// RAM holds the value.
    Done,
    /// A window took the value.
    Device {
        /// The number of the window.
        periph: u32,
        /// How many bytes behind its base.
        offset: u32,
    },
    /// Nothing that takes stores lies there.
    Unmapped,
}
