//! The instructions of flash, decoded once.

ghost use Rattle.std.specs.Prelude.{◌≡◌, ◌+◌, ◌*◌, ◌-◌, ◌%◌, ◌≤◌, length, IfOk, IfSome};
ghost use Rattle.base_words.specs.Bytes.{read};
ghost use Rattle.machine_devices.specs.declared.image.Image.{Image as ImageOf};
ghost use Rattle.machine_emulator.specs.Code.{IsDecoded, EachDecoded, IsCodeOf, StandsIn};

use machine_devices::image::Image;
use machine_thumb::table::Instr;
use machine_thumb_decoding::decode;
use std::alloc::{AllocError, Global};

/// An instruction, with its length.
#[derive(Clone, Copy)]
pub struct Decoded {
    /// The instruction.
    pub instr: Instr,
    /// How many bytes it has: 2 or 4.
    pub size: u8,
}

/// What is decoded from each halfword of flash on.
pub struct FlashCode {
    /// The first address of flash.
    pub base: u32,
    /// One for each halfword but the last, and `None` where no instruction begins; the list is empty where the memory for it was refused.
    pub instructions: Vec<Option<Decoded>>,
}

impl Drop for FlashCode {
    fn drop(self) {
        let FlashCode {
            base: _,
            instructions: _,
        } = self;
    }
}

/// The instruction that begins at a place of flash.
fn decoded_at(flash: &[u8], place: usize) -> Option<Decoded>
    requires { place + 4 ≤ length flash.now }
    ensures { IfSome result (λ decoded. IsDecoded flash.now place decoded) }
{
    let (instr, size) = decode(half_at(flash, place), half_at(flash, place + 2))?;
    Some(Decoded { instr, size })
}

/// The halfword at a place of flash.
#[tactic(auto, unfolding(base_words::specs::Bytes::read))]
fn half_at(flash: &[u8], place: usize) -> u16
    requires { place + 2 ≤ length flash.now }
    ensures { result ≡ read 2 place flash.now }
{
    u16::from_le_bytes([flash[place], flash[place + 1]])
}

/// What is decoded from each halfword of flash on.
fn decode_each(alloc: Global, flash: &[u8]) -> Result<Vec<Option<Decoded>>, AllocError>
    requires { 2 ≤ length flash.now }
    ensures { IfOk result (λ instructions. EachDecoded flash.now 0 instructions.items) }
{
    let count = flash.len() / 2 - 1;
    let mut instructions = Vec::with_capacity(alloc, count)?;
    for k in 0..count {
        instructions.push(decoded_at(flash, 2 * k))?;
    }
    Ok(instructions)
}

impl FlashCode {
    /// The code of an image. The one call that takes memory; where it is refused, nothing is kept.
    pub fn new(alloc: Global, image: &Image) -> FlashCode
        requires even { image.now.flash_base % 2 ≡ 0 }
        requires least { 2 ≤ length image.now.flash }
        ensures { IsCodeOf image.now result }
    {
        let instructions = match decode_each(alloc, image.flash.as_slice()) {
            Ok(instructions) => instructions,
            Err(_) => Vec::new(alloc),
        };
        FlashCode {
            base: image.flash_base,
            instructions,
        }
    }

    /// The instruction that begins at an address of flash.
    #[inline(always)]
    #[tactic(auto, using(crate::proofs::Found::found_rules))]
    pub fn at(&self, address: u32) -> Option<Decoded>
        requires { address % 2 ≡ 0 }
        ensures { (image : ImageOf) → IsCodeOf image self.now →
            IfSome result (λ decoded. StandsIn image address decoded) }
    {
        if address < self.base {
            return None;
        }
        let number = (address - self.base) as usize / 2;
        if number < self.instructions.len() {
            self.instructions[number]
        } else {
            None
        }
    }
}
