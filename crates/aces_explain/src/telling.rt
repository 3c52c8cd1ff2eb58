//! What is told of the bytes of a firmware. No file is touched.

ghost use Rattle.std.specs.Prelude.{◌≡◌, ◌≤◌, length, IfOk};
ghost use Rattle.ir_model.specs.Plain.{firmware_of};
ghost use Rattle.aces_words.specs.Requests.{firmware_limit};
ghost use Rattle.aces_firmwares.specs.Counts.{count_line};
ghost use Rattle.aces_explain.specs.Explained.{IsExplained, IsTold};

use crate::details::{check_fault, text_fault};
use aces_files::telling::CommandOutput;
use aces_firmwares::check::counts_of;
use aces_reports::Done;
use ir_check::check;
use ir_model::checked::Checked;
use std::alloc::{AllocError, Global};

/// What the bytes of a firmware are.
#[derive(Drop)]
pub enum Explained {
    /// They have a fault: the lines of the first.
    Faulty(Vec<u8>),
    /// They are the text of this firmware.
    Fine(Checked),
}

/// The lines of the first fault of the bytes of a firmware in a file of this name, or the firmware where they have none.
///
/// # Errors
///
/// There is no memory for it.
pub fn examine(alloc: Global, name: &str, bytes: &[u8]) -> Result<Explained, AllocError>
    requires { length bytes.now ≤ firmware_limit }
    ensures { IfOk result (IsExplained name.now bytes.now) }
{
    let firmware = match ir_reader::read(alloc, bytes) {
        Ok(firmware) => firmware,
        Err(fault) => return Ok(Explained::Faulty(text_fault(alloc, name, bytes, fault)?)),
    };
    match check(alloc, firmware) {
        Ok(checked) => Ok(Explained::Fine(checked)),
        Err((firmware, fault)) => Ok(Explained::Faulty(check_fault(
            alloc, name, bytes, &firmware, &fault,
        )?)),
    }
}

/// The line of counts of a firmware.
pub(crate) fn line_of_counts(alloc: Global, checked: &Checked) -> Result<Vec<u8>, AllocError>
    ensures { IfOk result (λ v. v.items ≡ count_line (firmware_of checked.now)) }
{
    let line = counts_of(checked);
    Vec::from_slice(alloc, line.as_slice())
}

/// The lines on the bytes of a firmware in a file of this name: those of the first fault, with which the command ends by status 1,
/// or the line of counts.
///
/// # Errors
///
/// There is no memory for them.
pub fn tell(alloc: Global, name: &str, bytes: &[u8]) -> Result<CommandOutput, AllocError>
    requires { length bytes.now ≤ firmware_limit }
    ensures { IfOk result (IsTold name.now bytes.now) }
{
    match examine(alloc, name, bytes)? {
        Explained::Faulty(lines) => Ok(CommandOutput {
            lines,
            done: Done::FaultTold,
        }),
        Explained::Fine(checked) => Ok(CommandOutput {
            lines: line_of_counts(alloc, &checked)?,
            done: Done::Completed,
        }),
    }
}
