//! Images: what a machine is started from.

ghost use Rattle.std.specs.Prelude.{◌≡◌, IfOk};

use base_lists::ListVec;
use std::alloc::{AllocError, Global};

/// A peripheral's range of addresses. Its words are recorded input and its stores are events.
pub struct Window {
    /// The peripheral's name.
    pub name: ListVec<u8>,
    /// The first address.
    pub base: u32,
    /// How many bytes.
    pub size: u32,
}

impl Drop for Window {
    fn drop(self) {
        let Window {
            name: _,
            base: _,
            size: _,
        } = self;
    }
}

/// What a machine is started from: its memories, its windows, and the bytes of its flash.
#[derive(Drop)]
pub struct Image {
    /// The first address of flash.
    pub flash_base: u32,
    /// The bytes of flash.
    pub flash: ListVec<u8>,
    /// The first address of RAM.
    pub ram_base: u32,
    /// How many bytes of RAM.
    pub ram_size: u32,
    /// The address of the monitor's block in RAM, or 0 where there is none.
    pub monitor: u32,
    /// The first address of the stack, or 0.
    pub stack_base: u32,
    /// How many bytes of stack, or 0.
    pub stack_size: u32,
    /// The number of regions of the protection unit, 8 or 16.
    pub regions: u32,
    /// Whether it is the image of a closed board, whose compartments read only what they are given.
    pub closed: bool,
    /// The peripherals' windows, in the order of their numbers.
    pub windows: ListVec<Window>,
}

impl Window {
    /// An equal window.
    pub fn copy(&self, alloc: Global) -> Result<Window, AllocError>
        ensures { IfOk result (λ window. window ≡ self.now) }
    {
        let name = Vec::from_slice(alloc, self.name.as_slice())?;
        Ok(Window {
            name: ListVec::new(name),
            base: self.base,
            size: self.size,
        })
    }
}

impl Image {
    /// An equal image.
    pub fn copy(&self, alloc: Global) -> Result<Image, AllocError>
        ensures { IfOk result (λ image. image ≡ self.now) }
    {
        let flash = Vec::from_slice(alloc, self.flash.as_slice())?;
        let windows = copied_windows(alloc, self.windows.as_slice())?;
        Ok(Image {
            flash_base: self.flash_base,
            flash: ListVec::new(flash),
            ram_base: self.ram_base,
            ram_size: self.ram_size,
            monitor: self.monitor,
            stack_base: self.stack_base,
            stack_size: self.stack_size,
            regions: self.regions,
            closed: self.closed,
            windows: ListVec::new(windows),
        })
    }
}

fn copied_windows(alloc: Global, windows: &[Window]) -> Result<Vec<Window>, AllocError>
    ensures { IfOk result (λ copies. copies.items ≡ windows.now) }
{
    let mut copies = Vec::new(alloc);
    for window in windows {
        copies.push(window.copy(alloc)?)?;
    }
    Ok(copies)
}
