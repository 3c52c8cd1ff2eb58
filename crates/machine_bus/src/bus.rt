//! Loads, stores and fetches.

ghost use Rattle.std.specs.Prelude.{◌≡◌, ◌+◌, ◌%◌, ◌≤◌, length, IfOk};
ghost use Rattle.base_words.specs.Bytes.{cut, read};
ghost use Rattle.base_words.specs.Width.{byte_count};
ghost use Rattle.machine_protection.specs.Protection.{IsAccessWidth};
ghost use Rattle.machine_bus.specs.Bus as accesses;
ghost use Rattle.machine_bus.specs.Memory as memory;
ghost use Rattle.machine_bus.specs.Locations as places;
ghost use Rattle.machine_devices.specs.Rules.{ObeysRules};

use crate::answer::{Loaded, Stored};
use crate::target::{Target, find, find_access};
use base_words::memory::{Width, read_value, write_value};
use machine_devices::image::Image;
use machine_devices::tape::Tape;
use machine_protection::region::Access;
use std::alloc::{AllocError, Global};
use std::marker::Model;

/// A machine's memories and windows: flash and RAM hold bytes, and a window gives recorded words.
/// No call but `new` takes memory.
pub struct Bus {
    image: Image,
    ram: Vec<u8>,
    tape: Tape,
}

impl Drop for Bus {
    fn drop(self) {
        let Bus {
            image: _,
            ram: _,
            tape: _,
        } = self;
    }
}

impl Model for Bus {
    ghost use Rattle.machine_bus.specs.Memory.{Memory, IsMemory};

    ghost Value = { Memory };

    ghost view = { λ b. record { image = b.image; ram = b.ram.items; queues = b.tape } };

    ghost invariant = { λ b. IsMemory (record { image = b.image; ram = b.ram.items; queues = b.tape }) };
}

fn width_of(width: u8) -> Width
    requires { IsAccessWidth width }
    ensures { byte_count result ≡ width }
{
    match width {
        1 => Width::Byte,
        2 => Width::Half,
        _ => Width::Word,
    }
}

/// The low bytes of a value, as many as the width has.
#[tactic(auto, unfolding(base_words::specs::Bytes::cut))]
pub fn cut_to_width(value: u32, width: u8) -> u32
    requires { IsAccessWidth width }
    ensures { result ≡ cut width value }
{
    match width {
        1 => value & 0xFF,
        2 => value & 0xFFFF,
        _ => value,
    }
}

impl Bus {
    /// The bus of an image: RAM holds the fill byte, and the windows give the words of the tape.
    /// The bus keeps a copy of the image.
    pub fn new(alloc: Global, image: &Image, tape: Tape, fill: u8) -> Result<Bus, AllocError>
        requires rules { ObeysRules image.now }
        requires queues { length tape ≡ length image.now.windows }
        ensures { IfOk result (λ bus. bus ≡ memory.filled image.now tape fill) }
    {
        let image = image.copy(alloc)?;
        let ram = vec![in alloc; fill; image.ram_size as usize]?;
        Ok(Bus { image, ram, tape })
    }

    /// The image that the bus was made from.
    pub fn image(&self) -> &Image
        ensures image { result.now ≡ self.now.image }
        ensures kept { memory.IsMemory self.now }
    {
        &self.image
    }

    /// Loads a value (MemU, B2.3.4). A load from a window takes its first recorded word.
    pub fn load(&mut self, addr: u32, width: u8) -> Loaded
        requires width { IsAccessWidth width }
        requires aligned { addr % width ≡ 0 }
        ensures loaded { result ≡ memory.load_from self.old addr width }
        ensures after { self.new ≡ memory.after_load result self.old }
    {
        match find_access(&self.image, addr, width) {
            Target::Ram(offset) => {
                Loaded::Value(read_value(&self.ram, offset as usize, width_of(width)))
            }
            Target::Flash(offset) => {
                let flash = self.image.flash.as_slice();
                Loaded::Value(read_value(flash, offset as usize, width_of(width)))
            }
            Target::Window { periph, offset } => match self.tape.take(periph) {
                Some(word) => Loaded::Device {
                    periph,
                    offset,
                    value: cut_to_width(word, width),
                },
                None => Loaded::NoInput,
            },
            Target::Nowhere => Loaded::Unmapped,
        }
    }

    /// Stores the low bytes of a value (MemU, B2.3.4). Only RAM keeps them.
    pub fn store(&mut self, addr: u32, width: u8, value: u32) -> Stored
        requires width { IsAccessWidth width }
        requires aligned { addr % width ≡ 0 }
        ensures stored { result ≡ accesses.store_at (places.location self.old.image addr) }
        ensures after { self.new ≡ memory.after_store self.old addr width value }
    {
        match find_access(&self.image, addr, width) {
            Target::Ram(offset) => {
                write_value(&mut self.ram, offset as usize, width_of(width), value);
                Stored::Done
            }
            Target::Window { periph, offset } => Stored::Device { periph, offset },
            Target::Flash(_) | Target::Nowhere => Stored::Unmapped,
        }
    }

    /// Fetches a halfword of code from flash or RAM; windows give none.
    pub fn fetch(&self, addr: u32) -> Option<u16>
        requires { addr % 2 ≡ 0 }
        ensures { result ≡ accesses.fetch_at (places.location self.now.image addr) self.now.image self.now.ram }
    {
        match find_access(&self.image, addr, 2) {
            Target::Ram(offset) => Some(read_half(&self.ram, offset as usize)),
            Target::Flash(offset) => {
                Some(read_half(self.image.flash.as_slice(), offset as usize))
            }
            Target::Window { .. } | Target::Nowhere => None,
        }
    }

    /// The word of flash or RAM at an address, and 0 where neither holds it. No window takes part.
    pub fn word(&self, addr: u32) -> u32
        requires { addr % 4 ≡ 0 }
        ensures { result ≡ accesses.word_at (places.location self.now.image addr) self.now.image self.now.ram }
    {
        match find_access(&self.image, addr, 4) {
            Target::Ram(offset) => read_value(&self.ram, offset as usize, Width::Word),
            Target::Flash(offset) => {
                read_value(self.image.flash.as_slice(), offset as usize, Width::Word)
            }
            Target::Window { .. } | Target::Nowhere => 0,
        }
    }

    /// The byte of flash or RAM at an address, and `None` exactly where neither holds it.
    pub fn byte(&self, addr: u32) -> Option<u8>
        ensures { result ≡ memory.byte_at (places.location self.now.image addr) self.now.image self.now.ram }
    {
        match find_access(&self.image, addr, 1) {
            Target::Ram(offset) => Some(read_byte(&self.ram, offset as usize)),
            Target::Flash(offset) => {
                Some(read_byte(self.image.flash.as_slice(), offset as usize))
            }
            Target::Window { .. } | Target::Nowhere => None,
        }
    }

    /// The number of the running compartment: the first word of the monitor's block, and 0 where
    /// the image has no monitor.
    #[tactic(auto, using(crate::proofs::Addresses::monitor_rules))]
    pub fn compartment(&self) -> u32
        ensures { result ≡ memory.compartment_of self.now.image self.now.ram }
    {
        if self.image.monitor == 0 {
            return 0;
        }
        self.word(self.image.monitor)
    }

    /// Whether memory lies at an address that takes this kind of access; flash takes no stores.
    pub fn is_memory(&self, kind: Access, addr: u32) -> bool
        ensures { result ≡ places.is_memory kind (places.location self.now.image addr) }
    {
        match find(&self.image, addr) {
            Target::Ram(_) => true,
            Target::Flash(_) => kind != Access::Write,
            Target::Window { .. } | Target::Nowhere => false,
        }
    }
}

#[tactic(auto, unfolding(base_words::specs::Bytes::read))]
fn read_half(memory: &[u8], place: usize) -> u16
    requires { place + 2 ≤ length memory.now }
    ensures { result ≡ read 2 place memory.now }
{
    u16::from_le_bytes([memory[place], memory[place + 1]])
}

#[tactic(auto, unfolding(base_words::specs::Bytes::read))]
fn read_byte(memory: &[u8], place: usize) -> u8
    requires { place + 1 ≤ length memory.now }
    ensures { result ≡ read 1 place memory.now }
{
    memory[place]
}
