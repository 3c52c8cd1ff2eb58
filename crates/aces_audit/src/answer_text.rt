//! The line on an image.

ghost use Rattle.std.specs.Prelude.{◌≡◌, ◌++◌, IfOk, OnOk, codes};
ghost use Rattle.monitor_audit.specs.declared.answer.Audit.TheVariants.{Yes, No};
ghost use Rattle.std.specs.Fmt.{decimal};
ghost use Rattle.aces_audit.specs.AnswerLine as lines;

use monitor_audit::Audit;
use monitor_model::AuditCheck;
use plan_report::text::Text;
use std::alloc::{AllocError, Global};

/// The word of a check.
fn check_word(check: AuditCheck) -> &'static [u8]
    ensures { result.now ≡ lines.check_word check }
{
    match check {
        AuditCheck::Header => b"header",
        AuditCheck::Tables => b"tables",
        AuditCheck::Code => b"code",
        AuditCheck::Regions => b"regions",
        AuditCheck::Sites => b"sites",
        AuditCheck::Lends => b"lends",
        AuditCheck::Inits => b"inits",
    }
}

/// Puts a word and a number behind it.
fn put_count(text: &mut Text, word: &[u8], count: u32) -> Result<(), AllocError>
    ensures { OnOk result (text.new ≡ text.old ++ word.now ++ decimal count) }
{
    text.put(word)?;
    text.put_decimal(u64::from(count))
}

/// The word before the number of compartments.
fn compartments_word() -> &'static [u8]
    ensures { result.now ≡ codes " compartments " }
{
    b" compartments "
}

/// Puts both counts.
fn put_counts(text: &mut Text, compartments: u32, sites: u32) -> Result<(), AllocError>
    ensures { OnOk result (text.new ≡ text.old ++ lines.counts compartments sites) }
{
    put_count(text, compartments_word(), compartments)?;
    put_count(text, b" sites ", sites)
}

/// Puts the line of a yes.
#[tactic(auto, unfolding(crate::specs::AnswerLine::answer_line))]
fn put_yes(text: &mut Text, compartments: u32, sites: u32) -> Result<(), AllocError>
    ensures { OnOk result (text.new ≡ text.old ++ lines.answer_line (Yes compartments sites)) }
{
    text.put(b"yes")?;
    put_counts(text, compartments, sites)?;
    text.put(b"\n")
}

/// Puts the line of a no.
#[tactic(auto, unfolding(crate::specs::AnswerLine::answer_line))]
fn put_no(text: &mut Text, check: AuditCheck, at: u32) -> Result<(), AllocError>
    ensures { OnOk result (text.new ≡ text.old ++ lines.answer_line (No check at)) }
{
    text.put(b"no ")?;
    text.put(check_word(check))?;
    text.put(b" 0x")?;
    text.put_hexadecimal(8, at)?;
    text.put(b"\n")
}

/// Puts the line of an answer.
fn put_answer(text: &mut Text, answer: &Audit) -> Result<(), AllocError>
    ensures { OnOk result (text.new ≡ text.old ++ lines.answer_line answer.now) }
{
    match answer {
        Audit::Yes {
            compartments,
            sites,
        } => put_yes(text, *compartments, *sites),
        Audit::No { check, at } => put_no(text, *check, *at),
    }
}

/// The line of an answer on an image: `yes compartments 4 sites 4`, or `no regions 0x08001020`.
///
/// # Errors
///
/// Only for want of memory.
pub fn answer_line(alloc: Global, answer: &Audit) -> Result<Vec<u8>, AllocError>
    ensures { IfOk result (λ line. line.items ≡ lines.answer_line answer.now) }
{
    let mut text = Text::new(alloc);
    put_answer(&mut text, answer)?;
    Ok(text.into_bytes())
}
