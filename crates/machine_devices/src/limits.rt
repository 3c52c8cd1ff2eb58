//! The limits of memories, of stacks and of windows.

ghost use Rattle.std.specs.Prelude.{◌≡◌};
ghost use Rattle.base_ranges.specs.Ranges.{is_power_between};
ghost use Rattle.machine_devices.specs.Rules.{least_stack, greatest_stack};

/// Flash and RAM each begin at a multiple of a MiB, which is also the most that each has.
pub const MEMORY_LIMIT: u32 = 0x10_0000;

/// The last address where flash may begin.
pub const LAST_FLASH_BASE: u32 = 0x1FE0_0000;

/// The least bytes of flash.
pub const LEAST_FLASH: u32 = 64;

/// The first address where RAM may begin.
pub const FIRST_RAM_BASE: u32 = 0x2000_0000;

/// The last address where RAM may begin.
pub const LAST_RAM_BASE: u32 = 0x3FF0_0000;

/// The least bytes of RAM.
pub const LEAST_RAM: u32 = 1024;

/// RAM has a multiple of so many bytes.
pub const RAM_UNIT: u32 = 32;

/// The bytes of the monitor's block.
pub const BLOCK_SIZE: u32 = 1024;

/// The most windows.
pub const WINDOW_LIMIT: u32 = 64;

/// Whether a stack may have so many bytes.
pub fn is_stack_size(size: u32) -> bool
    ensures { result ≡ is_power_between least_stack greatest_stack size }
{
    matches!(
        size,
        512 | 1024 | 2048 | 4096 | 8192 | 16384 | 32768 | 65536
    )
}
