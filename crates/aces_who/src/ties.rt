//! How compartments stand to globals and peripherals.

/// How a compartment may stand to a global or a peripheral, by its number.
#[derive(Clone, Copy)]
pub enum Tie {
    /// It may write the global: it stands in one of its data regions that it may write.
    MayWrite(u32),
    /// It may read the global on a closed board: it stands in one of its data regions.
    MayRead(u32),
    /// One of its functions writes the global.
    Writes(u32),
    /// It may use the peripheral: it lies in one of its ranges of addresses.
    MayUse(u32),
    /// One of its functions uses the peripheral.
    Uses(u32),
}

/// How a compartment reaches a global by its data regions.
#[derive(Clone, Copy)]
pub enum Access {
    /// By stores.
    Write,
    /// By loads, on a closed board. Who may store may load.
    Read,
}
