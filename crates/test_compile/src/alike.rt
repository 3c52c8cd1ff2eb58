//! Answers at numbers one behind the other, printed by one line where they are the same.

use anyhow::{Result, ensure};
use base_outside::{MemSink, Sink};
use std::alloc::Global;

/// Numbers one behind the other at which an answer is the same.
#[derive(Drop)]
pub(crate) struct Alike {
    first: u32,
    last: u32,
    answer: String,
}

impl Alike {
    /// A number and the answer at it.
    pub(crate) fn new(number: u32, answer: String) -> Alike {
        Alike {
            first: number,
            last: number,
            answer,
        }
    }

    /// Takes up the answer at the next number. Where it is another one, the line of the numbers before is printed.
    ///
    /// # Errors
    ///
    /// The line is not printed, or memory ran out.
    pub(crate) fn take(
        self,
        alloc: Global,
        out: &mut MemSink,
        number: u32,
        answer: String,
    ) -> Result<Alike> {
        let first = if self.answer.as_str() == answer.as_str() {
            self.first
        } else {
            self.print(alloc, out)?;
            number
        };
        Ok(Alike {
            first,
            last: number,
            answer,
        })
    }

    /// Prints the first number, the last one and the answer.
    ///
    /// # Errors
    ///
    /// The line is not printed, or memory ran out.
    pub(crate) fn print(&self, alloc: Global, out: &mut MemSink) -> Result<()> {
        let Alike {
            first,
            last,
            answer,
        } = self;
        let line = format!(in alloc; "{first} {last} {answer}\n")?;
        ensure!(out.put(line.as_bytes()).is_ok(), "a line is not printed");
        Ok(())
    }
}
