//! The records of the tables, read one behind the other.

ghost use Rattle.std.specs.Prelude.{◌≡◌, ℕ, ◌+◌, ◌*◌, ◌≤◌, List, length, IfOk};
ghost use Rattle.monitor_model.specs.FromFlash as flash;

use crate::numbers::word;
use base_lists::ListVec;
use machine_protection::region::Region;
use monitor_model::{CompRecord, InitRecord, SiteRecord, TargetRecord};
use std::alloc::{AllocError, Global};

/// What stands in flash in a number of bytes that its type tells.
pub(crate) trait Stored: Copy {
    /// Its number of bytes.
    ghost width: { ℕ };

    /// What stands at an offset of these bytes.
    ghost stands_at: { List ℕ → ℕ → Self };

    /// How many bytes it takes.
    fn width() -> usize
        ensures { result ≡ width };

    /// What stands at an offset.
    fn read(bytes: &[u8], at: usize) -> Self
        requires { at + width ≤ length bytes.now }
        ensures { result ≡ stands_at bytes.now at };
}

/// A word.
impl Stored for u32 {
    ghost width = { 4 };

    ghost stands_at = { flash.word_at };

    fn width() -> usize {
        4
    }

    fn read(bytes: &[u8], at: usize) -> u32 {
        word(bytes, at)
    }
}

/// Both words of a region.
impl Stored for Region {
    ghost width = { 8 };

    ghost stands_at = { flash.region_at };

    fn width() -> usize {
        8
    }

    fn read(bytes: &[u8], at: usize) -> Region {
        Region {
            rbar: word(bytes, at),
            rasr: word(bytes, at + 4),
        }
    }
}

/// The record of a site.
impl Stored for SiteRecord {
    ghost width = { 12 };

    ghost stands_at = { flash.site_record_at };

    fn width() -> usize {
        12
    }

    fn read(bytes: &[u8], at: usize) -> SiteRecord {
        SiteRecord {
            ret: word(bytes, at),
            first: word(bytes, at + 4),
            count: word(bytes, at + 8),
        }
    }
}

/// The record of a target.
impl Stored for TargetRecord {
    ghost width = { 8 };

    ghost stands_at = { flash.target_record_at };

    fn width() -> usize {
        8
    }

    fn read(bytes: &[u8], at: usize) -> TargetRecord {
        TargetRecord {
            entry: word(bytes, at),
            compartment: word(bytes, at + 4),
        }
    }
}

/// The record of a range with initial words.
impl Stored for InitRecord {
    ghost width = { 12 };

    ghost stands_at = { flash.init_record_at };

    fn width() -> usize {
        12
    }

    fn read(bytes: &[u8], at: usize) -> InitRecord {
        InitRecord {
            at: word(bytes, at),
            end: word(bytes, at + 4),
            from: word(bytes, at + 8),
        }
    }
}

/// A number of values of a type, one behind the other.
pub(crate) fn all_read<T: Stored>(
    alloc: Global,
    bytes: &[u8],
    start: usize,
    count: usize,
) -> Result<Vec<T>, AllocError>
    requires { start + T.width * count ≤ length bytes.now }
    ensures { IfOk result (λ all. all.items ≡ flash.records (T.stands_at bytes.now) T.width count start) }
{
    let size = T::width();
    let mut all = Vec::new(alloc);
    for number in 0..count {
        let at = start + size * number;
        all.push(T::read(bytes, at))?;
    }
    Ok(all)
}

/// The record of a compartment with so many slots.
fn compartment(
    alloc: Global,
    bytes: &[u8],
    at: usize,
    slots: usize,
) -> Result<CompRecord, AllocError>
    requires { at + (8 * slots + 16) ≤ length bytes.now }
    ensures { IfOk result (λ made. made ≡ flash.comp_record_at bytes.now slots at) }
{
    let code = Region::read(bytes, at);
    let all = all_read::<Region>(alloc, bytes, at + 8, slots)?;
    Ok(CompRecord {
        code,
        slots: ListVec::new(all),
        mask: word(bytes, at + 8 + 8 * slots),
        reads: word(bytes, at + 12 + 8 * slots),
    })
}

/// The records of so many compartments.
pub(crate) fn compartments(
    alloc: Global,
    bytes: &[u8],
    start: usize,
    count: usize,
    slots: usize,
) -> Result<Vec<CompRecord>, AllocError>
    requires slots { slots ≤ 12 }
    requires few { count ≤ 64 }
    requires room { start + (8 * slots + 16) * count ≤ length bytes.now }
    ensures { IfOk result (λ all. all.items ≡ flash.records (flash.comp_record_at bytes.now slots) (8 * slots + 16) count start) }
{
    let size = 8 * slots + 16;
    let mut all = Vec::new(alloc);
    for number in 0..count {
        all.push(compartment(alloc, bytes, start + size * number, slots)?)?;
    }
    Ok(all)
}
