//! Fields of an image file: their bytes, and the faults where they are missing or break a rule.

ghost use Rattle.std.specs.Prelude.{◌≡◌, ◌+◌, ◌≤◌, length, IfOk, OnOk, IsTrue};
ghost use Rattle.std.specs.Result.{result_err};
ghost use Rattle.machine_image.specs.Faults as faults;
ghost use Rattle.machine_image.specs.Parts.{number};

use crate::fault::ImageFault;
use base_words::memory::{Width, read_value};

/// The bytes that an image file begins with.
pub const MAGIC: &[u8; 4] = b"ACES";

/// The version for 8 regions on an open board, which tells nothing of either.
pub const BASIC_VERSION: u32 = 1;

/// The version that tells the number of regions, and whether the image is closed.
pub const PROTECTION_VERSION: u32 = 2;

/// Checks that a field of so many bytes is there whole.
#[tactic(auto, unfolding(crate::specs::Faults::whole))]
pub fn require_whole(bytes: &[u8], at: u32, width: u32) -> Result<(), ImageFault>
    ensures fault { result_err result ≡ faults.whole bytes.now at width }
    ensures room { OnOk result (at + width ≤ length bytes.now) }
{
    if at as usize + width as usize <= bytes.len() {
        Ok(())
    } else {
        Err(ImageFault::Short { at })
    }
}

/// Checks that the field at an offset keeps its rule.
#[tactic(auto, unfolding(crate::specs::Faults::rule))]
pub fn require(keeps: bool, at: u32) -> Result<(), ImageFault>
    ensures fault { result_err result ≡ faults.rule keeps at }
    ensures kept { OnOk result (IsTrue keeps) }
{
    if keeps {
        Ok(())
    } else {
        Err(ImageFault::Field { at })
    }
}

/// Reads the number in the four bytes at an offset.
pub fn read_number(bytes: &[u8], at: u32) -> Result<u32, ImageFault>
    ensures fault { result_err result ≡ faults.whole bytes.now at 4 }
    ensures value { IfOk result (λ n. n ≡ number bytes.now at) }
{
    require_whole(bytes, at, 4)?;
    Ok(read_value(bytes, at as usize, Width::Word))
}

/// Checks that the file ends at an offset.
#[tactic(auto, unfolding(crate::specs::Faults::end_check))]
pub fn require_end(bytes: &[u8], at: u32) -> Result<(), ImageFault>
    ensures { result_err result ≡ faults.end_check bytes.now at }
{
    if bytes.len() == at as usize {
        Ok(())
    } else {
        Err(ImageFault::Trailing { at })
    }
}
