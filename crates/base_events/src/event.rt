//! Accesses of peripherals.

/// An access of a peripheral.
#[derive(Clone, Copy, PartialEq, Eq)]
pub struct Event {
    /// The number of the compartment that made it.
    pub compartment: u32,
    /// The number of the peripheral.
    pub periph: u32,
    /// How many bytes behind the window's base.
    pub offset: u32,
    /// 1, 2 or 4 bytes.
    pub width: u8,
    /// Whether it is a store.
    pub write: bool,
    /// The value, cut to the width.
    pub value: u32,
}
