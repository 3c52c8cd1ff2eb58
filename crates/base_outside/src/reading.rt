// Reading a file whole.
ghost use Rattle.std.specs.Prelude.{◌≡◌, ◌⊎◌, ◌<◌, ◌≤◌, ℕ, List, All, length, take, Some, IsTrue, IsNone, IfOk, IfSome, OnErr, IsErrOf, IsSomeAnd};
ghost use Rattle.base_outside.specs.declared.reading.ReadRefusal.TheVariants.{Failed as failed, NoMemory};
ghost use Rattle.base_outside.specs.Counts.{Rose, Counts};
ghost use Rattle.base_outside.specs.Calls.{Call, Calls};
ghost use Rattle.base_outside.specs.Reading.{Reads, AllPieces, ReadsWhole, EndsUnread, AsksSize};

use crate::{Failed, Files};
use std::alloc::{AllocError, Global};

/// Why a file wasn't read whole.
#[derive(Clone, Copy, Debug, PartialEq, Eq)]
pub enum ReadRefusal {
    /// It holds more bytes than the limit.
    TooLong,
    /// It isn't there, or there was a read fault.
    Failed,
    /// There is no memory for its bytes.
    NoMemory,
}

impl From<Failed> for ReadRefusal {
    ghost from_gives = { λ _ e. e ≡ failed };

    fn from(_: Failed) -> Self {
        ReadRefusal::Failed
    }
}

impl From<AllocError> for ReadRefusal {
    ghost from_gives = { λ _ e. e ≡ NoMemory };

    fn from(_: AllocError) -> Self {
        ReadRefusal::NoMemory
    }
}

/// Reads a file whole: asks for its size, refuses it where that passes `limit`, and else reads until that
/// many bytes are there or a call gives none.
///
/// Where the contents are told, the answer is what the name holds. Where they aren't, it is the bytes that
/// the calls gave.
///
/// # Errors
/// `TooLong` where the answer of `size` passes `limit`, `Failed` where the name isn't there and at a read
/// fault, and `NoMemory`.
pub fn read_whole<F: Files>(
    alloc: Global,
    files: &mut F,
    name: &str,
    limit: u64,
) -> Result<Vec<u8>, ReadRefusal>
    ensures bytes { IsTrue F.told → IfOk result (λ bytes. F.held files.old name.now ≡ Some bytes.items) }
    ensures within { IfOk result (λ bytes. length bytes.items ≤ limit) }

    // The calls that it makes. It is too long exactly where `size` answered more than the limit, and where it failed the last call did.
    ensures calls { (calls : List Call) × Calls F.called files.old calls files.new
        × All (Reads name.now) calls
        × IfOk result (λ bytes. ReadsWhole name.now limit calls bytes.items)
        × (IsErrOf result ReadRefusal.TooLong → (size : ℕ) × AsksSize name.now size calls × (limit < size))
        × (IsErrOf result ReadRefusal.NoMemory → (size : ℕ) × AsksSize name.now size calls × (size ≤ limit))
        × (IsErrOf result ReadRefusal.Failed → EndsUnread name.now calls) }
    ensures too_long_told { IsTrue F.told → IsErrOf result ReadRefusal.TooLong →
        IsSomeAnd (F.held files.old name.now) (λ bytes. limit < length bytes) }
    ensures no_memory_told { IsTrue F.told → IsErrOf result ReadRefusal.NoMemory →
        IsSomeAnd (F.held files.old name.now) (λ bytes. length bytes ≤ limit) }

    // It fails only by a read fault or, where contents are told, if there is no such name.
    ensures cause { IsErrOf result ReadRefusal.Failed → Rose (F.read_faults files.old) (F.read_faults files.new)
        ⊎ (IsTrue F.told × IsNone (F.held files.old name.now)) }
    ensures missing { IsTrue F.told → IsNone (F.held files.old name.now) →
        IsErrOf result ReadRefusal.Failed × (F.read_faults files.new ≡ F.read_faults files.old) }

    ensures same { F.held files.new ≡ F.held files.old }
    ensures never_falls { F.read_faults files.old ≤ F.read_faults files.new }
    ensures only_failed { IsErrOf result ReadRefusal.Failed ⊎ (F.read_faults files.new ≡ F.read_faults files.old) }
    ensures writes { F.write_faults files.new ≡ F.write_faults files.old }
{
    let size = files.size(name)?;
    if limit < size {
        return Err(ReadRefusal::TooLong);
    }
    let mut bytes = vec![in alloc; 0u8; size as usize]?;
    let filled = fill(files, name, &mut bytes)?;
    bytes.truncate(filled);
    Ok(bytes)
}

// Reads until the buffer is full or a call gives nothing. Answers how many bytes were read.
fn fill<F: Files>(files: &mut F, name: &str, buf: &mut [u8]) -> Result<usize, Failed>
    ensures fits { IfOk result (λ n. n ≤ length buf.old) }
    ensures bytes { IsTrue F.told → IfOk result (λ n. IfSome (F.held files.old name.now) (λ bytes.
        (take n buf.new ≡ take n bytes) × ((n ≡ length buf.old) ⊎ (length bytes ≤ n)))) }
    ensures calls { (calls : List Call) × Calls F.called files.old calls files.new
        × All (Reads name.now) calls
        × IfOk result (λ n. AllPieces name.now (length buf.old) calls (take n buf.new))
        × OnErr result (EndsUnread name.now calls) }
    ensures cause { OnErr result (Rose (F.read_faults files.old) (F.read_faults files.new)
        ⊎ (IsTrue F.told × IsNone (F.held files.old name.now))) }
    ensures same { F.held files.new ≡ F.held files.old }
    ensures reads { Counts (F.read_faults files.old) (F.read_faults files.new) result }
    ensures writes { F.write_faults files.new ≡ F.write_faults files.old }
{
    let mut filled = 0;
    while filled < buf.len() {
        let n = files.read_at(name, filled as u64, &mut buf[filled..])?;
        if n == 0 {
            return Ok(filled);
        }
        filled += n;
    }
    Ok(filled)
}
