//! The tables and keys of a board's document.

ghost use Rattle.std.specs.Prelude.{◌≡◌};
ghost use Rattle.plan_board.specs.Keys as keys;

use machine_devices::limits::{
    FIRST_RAM_BASE, LAST_FLASH_BASE, LAST_RAM_BASE, LEAST_RAM, MEMORY_LIMIT, RAM_UNIT,
    is_stack_size,
};
use std::fmt;

/// A table of a board's document, or a key of one of its tables.
#[derive(Clone, Copy)]
pub enum Key {
    /// The table `flash`.
    Flash,
    /// The first address of flash.
    FlashBase,
    /// How many bytes of flash.
    FlashSize,
    /// The table `ram`.
    Ram,
    /// The first address of RAM.
    RamBase,
    /// How many bytes of RAM.
    RamSize,
    /// How many bytes of RAM are for the stack.
    RamStack,
    /// Which block stands at RAM's base: `size`, the largest, or `stack`; `size` by default.
    RamLowest,
    /// The table `mpu`, which need not be there.
    Mpu,
    /// The number of regions of the protection unit; 8 by default.
    MpuRegions,
    /// Whether loads are confined as stores are: `open` or `closed`; `open` by default.
    MpuReads,
    /// The table `deny`, which need not be there: ranges of devices that no compartment may reach.
    Deny,
}

impl Key {
    /// The key as it is printed: that of a table's key stands behind the table's and a point.
    pub fn path(self) -> &'static str
        ensures { result.now ≡ keys.path_of self }
    {
        match self {
            Key::Flash => "flash",
            Key::FlashBase => "flash.base",
            Key::FlashSize => "flash.size",
            Key::Ram => "ram",
            Key::RamBase => "ram.base",
            Key::RamSize => "ram.size",
            Key::RamStack => "ram.stack",
            Key::RamLowest => "ram.lowest",
            Key::Mpu => "mpu",
            Key::MpuRegions => "mpu.regions",
            Key::MpuReads => "mpu.reads",
            Key::Deny => "deny",
        }
    }

    /// The key as it stands in its table.
    pub(crate) fn word(self) -> &'static str
        ensures { result.now ≡ keys.word_of self }
    {
        match self {
            Key::Flash => "flash",
            Key::Ram => "ram",
            Key::Mpu => "mpu",
            Key::Deny => "deny",
            Key::FlashBase | Key::RamBase => "base",
            Key::FlashSize | Key::RamSize => "size",
            Key::RamStack => "stack",
            Key::RamLowest => "lowest",
            Key::MpuRegions => "regions",
            Key::MpuReads => "reads",
        }
    }

    /// Whether the key may have this number.
    pub(crate) fn allows(self, number: u32) -> bool
        ensures { result ≡ keys.allows self number }
    {
        match self {
            Key::FlashBase => number <= LAST_FLASH_BASE && number % MEMORY_LIMIT == 0,
            Key::RamBase => {
                number >= FIRST_RAM_BASE && number <= LAST_RAM_BASE && number % MEMORY_LIMIT == 0
            }
            Key::FlashSize | Key::RamSize => {
                number >= LEAST_RAM && number <= MEMORY_LIMIT && number % RAM_UNIT == 0
            }
            Key::RamStack => is_stack_size(number),
            Key::MpuRegions => number == 8 || number == 16,
            Key::Flash | Key::Ram | Key::RamLowest | Key::Mpu | Key::MpuReads | Key::Deny => false,
        }
    }
}

impl fmt::Display for Key {
    fn fmt<W: fmt::Write>(&self, f: &mut fmt::Formatter<W>) -> fmt::Result {
        f.write_str(self.path())
    }
}
