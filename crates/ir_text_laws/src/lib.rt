//! Laws that join the printer and the reader of texts.
#![tactic(auto)]

ghost use Rattle.std.specs.Prelude.{◌≡◌, ◌≤◌, length, IfOk};
ghost use Rattle.ir_model.specs.Plain.{firmware_of};
ghost use Rattle.ir_model.specs.TextLimits.{text_limit};
ghost use Rattle.ir_model.specs.Canonical.{canonical, IsWithinLimits};
ghost use Rattle.ir_reader.specs.First.{IsAccepted};
ghost use Rattle.ir_text_laws.specs.CanonicalTexts.{CanonicalTextsAreOwn};

use ir_model::firmware::Firmware;
use ir_printer::print::print;
use ir_reader::{TextFault, read};
use std::alloc::Global;

/// The canonical text of a firmware within the limits is a text of that firmware and of no other. A call does nothing: the
/// clause is the law.
pub fn canonical_texts()
    ensures own { CanonicalTextsAreOwn }
{
    ir_reader::laws::texts();
}

/// What is printed of a firmware within the limits is read back as that firmware, unless memory runs out.
pub fn read_back(alloc: Global, f: &Firmware) -> Result<Firmware, TextFault>
    requires limits { IsWithinLimits (firmware_of f.now) }
    requires short { length (canonical (firmware_of f.now)) ≤ text_limit }
    ensures same { IfOk result (λ x. firmware_of x ≡ firmware_of f.now) }
    ensures only { IsAccepted result }
{
    canonical_texts();
    let Ok(text) = print(alloc, f) else {
        return Err(TextFault::NoMemory);
    };
    read(alloc, text.as_slice())
}
