//! All lines.

ghost use Rattle.std.specs.Prelude.{◌≡◌, ◌++◌, IfOk, OnOk};
ghost use Rattle.ir_model.specs.Plain.{firmware_of};
ghost use Rattle.ir_model.specs.Resolve as definition;
ghost use Rattle.ir_program.specs.Seen.{program_of};
ghost use Rattle.aces_why.specs.Findings.{AreFindingsOf};
ghost use Rattle.aces_why.specs.Subjects.{subject_of};
ghost use Rattle.aces_why.specs.Told as told;

use crate::finding::findings;
use crate::shared::put_shared;
use crate::subject::{Findings, Subject};
use crate::uses::put_uses;
use crate::warnings::put_warnings;
use ir_model::checked::Checked;
use ir_model::firmware::Firmware;
use ir_program::program::Program;
use ir_resolve::resolving::resolve;
use plan_report::text::Text;
use std::alloc::{AllocError, Global};

/// Puts all lines.
fn put_all(text: &mut Text, subject: &Subject<'_>) -> Result<(), AllocError>
    ensures { OnOk result (text.new ≡ text.old ++ told.reach_lines (subject_of subject.now)) }
{
    let funcs = subject.program.funcs.as_slice();
    put_uses(text, subject, funcs)?;
    put_shared(text, subject, funcs)?;
    put_warnings(text, subject)
}

/// The lines of what was found.
fn lines_of(
    alloc: Global,
    firmware: &Firmware,
    program: &Program<'_>,
    found: &Findings,
) -> Result<Vec<u8>, AllocError>
    requires program { program_of program.now ≡ definition.resolve (firmware_of firmware.now) }
    requires found { AreFindingsOf (program_of program.now) found.now }
    ensures { IfOk result (λ lines. told.IsToldOf (firmware_of firmware.now) lines.items) }
{
    let subject = Subject {
        firmware,
        program,
        found,
    };
    let mut text = Text::new(alloc);
    put_all(&mut text, &subject)?;
    Ok(text.into_bytes())
}

/// What the loads, stores and calls of a firmware may reach, which of its registers stand for several objects and are stored through, and
/// the warnings.
///
/// # Errors
///
/// There is no memory for it. This is also the answer where there are more functions, blocks or peripherals than a number of 32 bits
/// tells, as in no firmware.
pub fn reach_lines(alloc: Global, firmware: &Checked) -> Result<Vec<u8>, AllocError>
    ensures { IfOk result (λ lines. told.IsToldOf (firmware_of firmware.now) lines.items) }
{
    let program = resolve(alloc, firmware)?;
    let found = findings(alloc, firmware, &program)?;
    lines_of(alloc, firmware.firmware(), &program, &found)
}
