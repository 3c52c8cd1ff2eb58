//! The listing.

ghost use Rattle.std.specs.Prelude.{◌≡◌, ◌++◌, OnOk, IfOk};
ghost use Rattle.plan_report.specs.Listing as listing;
ghost use Rattle.plan_report.specs.Subjects.{subject_of};

use crate::compartment::put_compartment;
use crate::naming::put_globals;
use crate::subject::Subject;
use crate::text::Text;
use crate::totals::{put_memories, put_sites};
use std::alloc::{AllocError, Global};

/// Puts the line of the policy.
fn put_policy(text: &mut Text, policy: &[u8]) -> Result<(), AllocError>
    ensures { OnOk result (text.new ≡ text.old ++ listing.policy_line policy.now) }
{
    text.put(b"policy ")?;
    text.put(policy)?;
    text.put(b"\n")
}

/// Puts the lines of all compartments.
#[tactic(auto, unfolding(crate::specs::Listing::all_compartment_lines))]
fn put_compartments(alloc: Global, text: &mut Text, subject: &Subject<'_>) -> Result<(), AllocError>
    ensures { OnOk result (text.new ≡ text.old ++ listing.all_compartment_lines (subject_of subject.now)) }
{
    for compartment in 0..subject.graph.groups.count {
        put_compartment(alloc, text, subject, compartment)?;
    }
    Ok(())
}

/// Puts the line of the globals that no compartment reaches, where there are any.
#[tactic(auto, unfolding(crate::specs::Listing::unwritten_lines))]
fn put_unwritten(text: &mut Text, subject: &Subject<'_>) -> Result<(), AllocError>
    ensures { OnOk result (text.new ≡ text.old ++ listing.unwritten_lines (subject_of subject.now)) }
{
    let Some(spot) = subject.plan.unwritten else {
        return Ok(());
    };
    text.put(b"unwritten")?;
    text.put_range(spot.base, u64::from(spot.size))?;
    put_globals(text, subject.firmware, subject.graph.unwritten.as_slice())?;
    text.put(b"\n")
}

fn put_all(
    alloc: Global,
    text: &mut Text,
    subject: &Subject<'_>,
    policy: &[u8],
) -> Result<(), AllocError>
    ensures { OnOk result (text.new ≡ text.old ++ listing.listing (subject_of subject.now) policy.now) }
{
    put_policy(text, policy)?;
    put_compartments(alloc, text, subject)?;
    put_unwritten(text, subject)?;
    put_sites(text, subject)?;
    put_memories(text, subject)
}

/// The listing of a firmware on a board under a policy of this name.
///
/// # Errors
///
/// There is no memory for it. This is also the answer where there are more functions or regions than a number of 32 bits tells,
/// an address of a cover has more than 32 bits, or a sum more than 64: no firmware comes there.
pub fn listing(alloc: Global, subject: &Subject<'_>, policy: &[u8]) -> Result<Vec<u8>, AllocError>
    ensures { IfOk result (λ lines. lines.items ≡ listing.listing (subject_of subject.now) policy.now) }
{
    let mut text = Text::new(alloc);
    put_all(alloc, &mut text, subject, policy)?;
    Ok(text.into_bytes())
}
