//! The monitor's lists for tables.

ghost use Rattle.std.specs.Prelude.{◌≡◌, ◌<◌, ◌^◌, IfOk};
ghost use Rattle.monitor_steps.specs.Lists.{steps_of};
ghost use Rattle.monitor_program.specs.Svc as svc_handler;
ghost use Rattle.monitor_program.specs.MemFault as fault_handler;
ghost use Rattle.monitor_program.specs.Reset as start;
ghost use Rattle.monitor_program.specs.Page as flash;
ghost use Rattle.monitor_lists.specs.Made.{constants_of};
ghost use Rattle.monitor_code.specs.Whole.{AreLists};

use monitor_assembler::length_of;
use monitor_constants::without_stub;
use monitor_lists::Numbers;
use monitor_lists::reset::start_up;
use monitor_model::Tables;
use monitor_program::code_size::page_is_full;
use monitor_steps::PrivilegedStep;
use std::alloc::{AllocError, Global};

/// The three lists.
pub(crate) struct Lists {
    /// Start-up.
    pub(crate) start: Vec<PrivilegedStep>,
    /// The handler of SVC.
    pub(crate) svc: Vec<PrivilegedStep>,
    /// The handler of MemManage.
    pub(crate) memfault: Vec<PrivilegedStep>,
}

impl Drop for Lists {
    fn drop(self) {
        let Lists {
            start: _,
            svc: _,
            memfault: _,
        } = self;
    }
}

/// The three lists by what they take of the tables.
pub(crate) fn all_lists(alloc: Global, numbers: &Numbers) -> Result<Lists, AllocError>
    ensures { IfOk result (λ lists. AreLists (constants_of numbers.now) lists) }
{
    Ok(Lists {
        start: start_up(alloc, numbers)?.into_vec(),
        svc: monitor_lists::svc::handler(alloc, numbers)?.into_vec(),
        memfault: monitor_lists::memfault::handler(alloc, numbers)?.into_vec(),
    })
}

/// The offset of the leave stub. The code of the lists has the same length for each stub.
fn stub_offset(alloc: Global, numbers: &Numbers) -> Result<u32, AllocError>
    requires { flash.stub_offset (constants_of numbers.now) < 2 ^ 24 }
    ensures { IfOk result (λ offset. offset ≡ flash.stub_offset (constants_of numbers.now)) }
{
    let lists = all_lists(alloc, numbers)?;
    Ok(64 + length_of(&lists.start) + length_of(&lists.svc) + length_of(&lists.memfault))
}

/// What the lists take of the tables.
pub(crate) fn numbers(alloc: Global, t: &Tables) -> Result<Numbers, AllocError>
    ensures { IfOk result (λ numbers. constants_of numbers ≡ flash.constants t.now) }
{
    page_is_full();
    let mut numbers = without_stub(t);
    let offset = stub_offset(alloc, &numbers)?;
    numbers.stub_entry = t.base.wrapping_add(offset + 1);
    Ok(numbers)
}

/// Start-up for these tables.
pub fn reset(alloc: Global, t: &Tables) -> Result<Vec<PrivilegedStep>, AllocError>
    ensures { IfOk result (λ steps. steps_of steps.items ≡ start.reset (flash.constants t.now)) }
{
    let numbers = numbers(alloc, t)?;
    Ok(start_up(alloc, &numbers)?.into_vec())
}

/// The handler of SVC for these tables.
pub fn svc(alloc: Global, t: &Tables) -> Result<Vec<PrivilegedStep>, AllocError>
    ensures { IfOk result (λ steps. steps_of steps.items ≡ svc_handler.svc (flash.constants t.now)) }
{
    let numbers = numbers(alloc, t)?;
    Ok(monitor_lists::svc::handler(alloc, &numbers)?.into_vec())
}

/// The handler of MemManage for these tables.
pub fn memfault(alloc: Global, t: &Tables) -> Result<Vec<PrivilegedStep>, AllocError>
    ensures { IfOk result (λ steps. steps_of steps.items ≡ fault_handler.memfault (flash.constants t.now)) }
{
    let numbers = numbers(alloc, t)?;
    Ok(monitor_lists::memfault::handler(alloc, &numbers)?.into_vec())
}
