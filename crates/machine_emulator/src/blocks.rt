//! Some numbers of blocks.

ghost use Rattle.std.specs.Prelude.{◌≡◌, ◌%◌, get_or, set, replicate, IsTrue};

/// So many numbers are kept at most.
const ROOM: usize = 32;
/// The number of no block.
const NONE: u32 = 0xFFFF_FFFF;

/// Some numbers of blocks, each at the place of its lowest bits.
#[derive(Clone, Copy)]
pub(crate) struct Blocks {
    pub(crate) numbers: [u32; ROOM],
}

impl Blocks {
    /// No block.
    pub(crate) fn none() -> Blocks
        ensures { result.numbers ≡ replicate 32 0xFFFFFFFF }
    {
        Blocks {
            numbers: [NONE; ROOM],
        }
    }

    /// Whether the number is there.
    #[inline(always)]
    pub(crate) fn has(&self, block: u32) -> bool
        ensures { IsTrue result → get_or self.now.numbers (block % 32) 0 ≡ block }
    {
        self.numbers[block as usize % ROOM] == block
    }

    /// Puts a number in, and another one out perhaps.
    pub(crate) fn put(&mut self, block: u32)
        ensures { self.new.numbers ≡ set self.old.numbers (block % 32) block }
    {
        self.numbers[block as usize % ROOM] = block;
    }
}
