//! Words behind their names.

ghost use Rattle.std.specs.Prelude.{◌≡◌, ◌++◌, OnOk};
ghost use Rattle.std.specs.Fmt.{decimal};
ghost use Rattle.aces_inspection.specs.CoreLines.{named_word};

use plan_report::text::Text;
use std::alloc::AllocError;

/// Puts a word in eight digits behind its name.
#[tactic(auto, unfolding(crate::specs::CoreLines::named_word))]
pub(crate) fn put_word(text: &mut Text, name: &[u8], word: u32) -> Result<(), AllocError>
    ensures { OnOk result (text.new ≡ text.old ++ named_word name.now word) }
{
    text.put(name)?;
    text.put(b" 0x")?;
    text.put_hexadecimal(8, word)
}

/// Puts a decimal number behind its name.
pub(crate) fn put_number(text: &mut Text, name: &[u8], number: u32) -> Result<(), AllocError>
    ensures { OnOk result (text.new ≡ text.old ++ name.now ++ decimal number) }
{
    text.put(name)?;
    text.put_decimal(u64::from(number))
}
