//! A text that grows.

ghost use Rattle.std.specs.Prelude.{◌≡◌, ◌++◌, [], OnOk};
ghost use Rattle.std.specs.Fmt.{decimal};
ghost use Rattle.machine_lines.specs.Lines.{hexadecimal};
ghost use Rattle.plan_report.specs.Names.{range_text};

use machine_lines::numbers::{decimal_digits, hexadecimal_digits};
use std::alloc::{AllocError, Global};
use std::marker::Model;

/// The bytes of printed lines, as they grow.
#[derive(Drop)]
pub struct Text {
    bytes: Vec<u8>,
}

impl Model for Text {
    ghost use Rattle.std.specs.Prelude.{List, ℕ};

    ghost Value = { List ℕ };

    ghost view = { λ t. t.bytes.items };
}

impl Text {
    /// A text without bytes. Takes no memory.
    pub fn new(alloc: Global) -> Text
        ensures { result ≡ [] }
    {
        Text {
            bytes: Vec::new(alloc),
        }
    }

    /// The bytes. Takes no memory.
    pub fn into_bytes(self) -> Vec<u8>
        ensures { result.items ≡ self }
    {
        let Text { bytes } = self;
        bytes
    }

    /// Puts these bytes behind those that are there.
    ///
    /// # Errors
    ///
    /// There is no memory for them.
    pub fn put(&mut self, bytes: &[u8]) -> Result<(), AllocError>
        ensures { OnOk result (self.new ≡ self.old ++ bytes.now) }
    {
        self.bytes.extend_from_slice(bytes)?;
        Ok(())
    }

    /// Puts the decimal digits of a number behind the bytes that are there.
    ///
    /// # Errors
    ///
    /// There is no memory for them.
    pub fn put_decimal(&mut self, number: u64) -> Result<(), AllocError>
        ensures { OnOk result (self.new ≡ self.old ++ decimal number) }
    {
        self.put(decimal_digits(number).as_slice())
    }

    /// Puts a number of hexadecimal digits of a value behind the bytes that are there.
    ///
    /// # Errors
    ///
    /// There is no memory for them.
    pub fn put_hexadecimal(&mut self, count: u8, number: u32) -> Result<(), AllocError>
        ensures { OnOk result (self.new ≡ self.old ++ hexadecimal count number) }
    {
        self.put(hexadecimal_digits(count, number).as_slice())
    }

    /// Puts a range of addresses behind the bytes that are there: its base in eight digits, and its size.
    ///
    /// # Errors
    ///
    /// There is no memory for them.
    #[tactic(auto, unfolding(crate::specs::Names::range_text))]
    pub fn put_range(&mut self, base: u32, size: u64) -> Result<(), AllocError>
        ensures { OnOk result (self.new ≡ self.old ++ range_text base size) }
    {
        self.put(b" 0x")?;
        self.put_hexadecimal(8, base)?;
        self.put(b" ")?;
        self.put_decimal(size)
    }
}
