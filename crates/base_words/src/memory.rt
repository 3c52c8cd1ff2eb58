//! Numbers in a memory of bytes, the lowest byte first.

ghost use Rattle.std.specs.Prelude.{◌≡◌, ◌+◌, ◌*◌, ◌≤◌, length};
ghost use Rattle.base_words.specs.Bytes.{read, write, write_all};
ghost use Rattle.base_words.specs.Width.{byte_count};

/// The width of an access to memory.
#[derive(Clone, Copy)]
pub enum Width {
    /// 8 bits.
    Byte,
    /// 16 bits.
    Half,
    /// 32 bits.
    Word,
}

impl Width {
    /// How many bytes the width has.
    pub fn bytes(self) -> usize
        ensures { result ≡ byte_count self }
    {
        match self {
            Width::Byte => 1,
            Width::Half => 2,
            Width::Word => 4,
        }
    }
}

/// The number in the bytes of this width from `place` on (MemU).
#[tactic(auto, unfolding(crate::specs::Bytes::read))]
pub fn read_value(memory: &[u8], place: usize, width: Width) -> u32
    requires { place + byte_count width ≤ length memory.now }
    ensures { result ≡ read (byte_count width) place memory.now }
{
    match width {
        Width::Byte => u32::from(memory[place]),
        Width::Half => u32::from(u16::from_le_bytes([memory[place], memory[place + 1]])),
        Width::Word => u32::from_le_bytes([
            memory[place],
            memory[place + 1],
            memory[place + 2],
            memory[place + 3],
        ]),
    }
}

/// Writes the low bytes of `value`, as many as the width has, from `place` on (MemU).
#[tactic(auto, unfolding(crate::specs::Bytes::write))]
pub fn write_value(memory: &mut [u8], place: usize, width: Width, value: u32)
    requires { place + byte_count width ≤ length memory.old }
    ensures { memory.new ≡ write (byte_count width) place value memory.old }
{
    let bytes = value.to_le_bytes();
    memory[place] = bytes[0];
    if width == Width::Byte {
        return;
    }
    memory[place + 1] = bytes[1];
    if width == Width::Half {
        return;
    }
    memory[place + 2] = bytes[2];
    memory[place + 3] = bytes[3];
}

/// Writes the words one after another from `place` on, the first of them first.
#[tactic(auto, unfolding(crate::specs::Bytes::write_all))]
pub fn write_words(memory: &mut [u8], place: usize, words: &[u32])
    requires { place + 4 * length words.now ≤ length memory.old }
    ensures { memory.new ≡ write_all 4 place words.now memory.old }
{
    for (i, word) in words.iter().enumerate() {
        write_value(memory, place + 4 * i, Width::Word, *word);
    }
}
