//! The check of the code.

ghost use Rattle.std.specs.Prelude.{◌≡◌, ◌+◌, ◌<◌, ◌≤◌, ◌^◌, length};
ghost use Rattle.monitor_model.specs.Checks.{difference};

/// The address of the first byte at which flash differs from these bytes, where it begins at this address.
pub fn code_fault(wanted: &[u8], flash: &[u8], base: u32) -> Option<u32>
    requires room { length wanted.now ≤ length flash.now }
    requires low { base + length wanted.now < 2 ^ 32 }
    ensures { result ≡ difference wanted.now flash.now base }
{
    let mut at = base;
    for (index, byte) in wanted.iter().enumerate() {
        if *byte != flash[index] {
            return Some(at);
        }
        at += 1;
    }
    None
}
