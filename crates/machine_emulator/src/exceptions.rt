//! Exception entry and return (Armv7-M ARM, B1.5.6 to B1.5.8).

ghost use Rattle.std.specs.Prelude.{◌≡◌, ◌<◌, ◌%◌, ◌++◌, ◌+◌, ◌≤◌, length, true};
ghost use Rattle.arrayvec.specs.ArrayVec.{array_vec_len};
ghost use Rattle.machine_devices.specs.Rules.{ObeysRules};
ghost use Rattle.machine_model.specs.Exceptions as exceptions;
ghost use Rattle.machine_model.specs.Act.{Calls};
ghost use Rattle.machine_emulator.specs.Parts.{state_of, left, left_by, does};
ghost use Rattle.machine_model.specs.State.{by_mpu};
ghost use Rattle.machine_model.specs.Tests.{all_open};

use crate::Guard;
use crate::parts::Parts;
use arrayvec::ArrayVec;
use base_events::event::Event;
use base_words::conditions::Flags;
use base_words::memory::{Width, read_value};
use machine_bus::bus::Bus;
use machine_devices::image::Image;
use machine_model::state::{CoreRegisters, FaultStatus, StopReason};
use machine_protection::region::Access;

/// The number of MemManage (B1.5.2).
const MEM_MANAGE: u32 = 4;
/// The number of the supervisor call.
const SUPERVISOR_CALL: u32 = 11;

/// Whether the stack pointer is moved to a multiple of 8 (STKALIGN).
fn has_pad(sp: u32) -> bool
    ensures { result ≡ exceptions.has_pad sp }
{
    sp % 8 != 0
}

/// Where the words of an exception go, by the stack pointer.
fn frame_at(sp: u32) -> u32
    ensures { result ≡ exceptions.frame_at sp }
{
    sp.wrapping_sub(if has_pad(sp) { 36 } else { 32 })
}

/// The xPSR that an entry pushes: the flags, T, and in bit 9 the pad.
fn stacked_status(flags: Flags, pad: bool) -> u32
    ensures { result ≡ exceptions.stacked_status flags pad }
{
    (u32::from(flags.negative) << 31)
        + (u32::from(flags.is_zero) << 30)
        + (u32::from(flags.carry) << 29)
        + (u32::from(flags.overflow) << 28)
        + (1 << 24)
        + (u32::from(pad) << 9)
}

/// The flags of a stacked xPSR.
fn flags_of(status: u32) -> Flags
    ensures { result ≡ exceptions.flags_of status }
{
    Flags {
        negative: (status >> 31) % 2 == 1,
        is_zero: (status >> 30) % 2 == 1,
        carry: (status >> 29) % 2 == 1,
        overflow: (status >> 28) % 2 == 1,
    }
}

/// Whether a stacked xPSR is of Thread mode: T is set, and the exception number 0.
fn is_thread(status: u32) -> bool
    ensures { result ≡ exceptions.is_thread status }
{
    (status >> 24) % 2 == 1 && status % 512 == 0
}

/// The stack pointer behind a frame's pad.
fn with_pad(pad: bool, sp: u32) -> u32
    ensures { result ≡ exceptions.with_pad pad sp }
{
    if pad { sp / 8 * 8 + 4 + sp % 4 } else { sp }
}

/// The address of an exception's handler, from the vector table at the flash base.
pub fn vector(image: &Image, exception: u32) -> u32
    requires rules { ObeysRules image.now }
    requires number { exception < 16 }
    ensures { result ≡ exceptions.vector image.now exception }
{
    let word = read_value(image.flash.as_slice(), 4 * exception as usize, Width::Word);
    word / 2 * 2
}

/// Whether so many words of a frame may be accessed: allowed, and in memory that takes such an access.
#[tactic(auto, unfolding(machine_model::specs::Tests::all_open))]
fn is_all_open(bus: &Bus, guard: &mut Guard, kind: Access, address: u32, count: u8) -> bool
    ensures answer { result ≡ all_open by_mpu bus.now.image guard.old kind address count }
    ensures same { guard.new ≡ guard.old }
{
    if count == 0 {
        return true;
    }
    if !guard.permits(kind, address) || !bus.is_memory(kind, address) {
        return false;
    }
    is_all_open(bus, guard, kind, address.wrapping_add(4), count - 1)
}

/// Stores words one after another.
#[tactic(auto, unfolding(machine_model::specs::Exceptions::push_words))]
fn push_words(bus: &mut Bus, address: u32, values: &[u32])
    requires { address % 4 ≡ 0 }
    ensures { bus.new ≡ record bus.old {
      ram = exceptions.push_words bus.old.image address values.now bus.old.ram;
    } }
{
    if let Some((value, rest)) = values.split_first() {
        let _ = bus.store(address, 4, *value);
        push_words(bus, address.wrapping_add(4), rest);
    }
}

/// Reads so many words one after another, and puts them behind those that are there.
#[tactic(auto, unfolding(machine_model::specs::Exceptions::stacked_words))]
fn read_words(bus: &Bus, address: u32, count: u8, words: &mut ArrayVec<u32, 8>)
    requires aligned { address % 4 ≡ 0 }
    requires room { array_vec_len words.old + count ≤ 8 }
    ensures words { words.new.items
        ≡ words.old.items ++ exceptions.stacked_words bus.now.image address count bus.now.ram }
    ensures length { array_vec_len words.new ≡ array_vec_len words.old + count }
{
    if count == 0 {
        return;
    }
    words.push(bus.word(address));
    read_words(bus, address.wrapping_add(4), count - 1, words);
}

/// What an entry pushes (PushStack): r0 to r3, r12, lr, the return address, xPSR.
fn frame_of(core: &CoreRegisters, return_address: u32) -> [u32; 8]
    ensures { result ≡ exceptions.frame_of core.now return_address }
{
    [
        core.low[0],
        core.low[1],
        core.low[2],
        core.low[3],
        core.high[4],
        core.lr,
        return_address,
        stacked_status(core.flags, has_pad(core.sp)),
    ]
}

/// The registers of the handler, which goes on with MSP (ExceptionTaken).
fn take_exception(core: &mut CoreRegisters, image: &Image, exception: u32)
    requires rules { ObeysRules image.now }
    requires number { exception < 16 }
    ensures { core.new ≡ exceptions.entry_core image.now exception core.old }
{
    let frame = frame_at(core.sp);
    if core.on_psp {
        core.sp = core.other_sp;
        core.other_sp = frame;
        core.lr = 0xFFFFFFFD;
    } else {
        core.sp = frame;
        core.lr = 0xFFFFFFF9;
    }
    core.on_psp = false;
    core.pc = vector(image, exception);
}

/// The registers of the thread, taken from the words of its frame (PopStack).
fn unstack(core: &mut CoreRegisters, psp: bool, frame: u32, words: &[u32])
    requires { length words.now ≡ 8 }
    ensures { core.new ≡ exceptions.unstacked psp core.old frame words.now }
{
    let status = words[7];
    core.low[0] = words[0];
    core.low[1] = words[1];
    core.low[2] = words[2];
    core.low[3] = words[3];
    core.high[4] = words[4];
    if psp {
        core.other_sp = core.sp;
    }
    core.sp = with_pad((status >> 9) % 2 == 1, frame.wrapping_add(32));
    core.on_psp = psp;
    core.lr = words[5];
    core.pc = words[6] / 2 * 2;
    core.flags = flags_of(status);
}

impl Parts {
    /// Enters an exception (B1.5.6): pushes eight words where all may be written, else the machine stops.
    pub fn enter(
        &mut self,
        exception: u32,
        return_address: u32,
        status: FaultStatus,
    ) -> Option<Event>
        requires aligned { self.old.core.sp % 4 ≡ 0 }
        requires number { exception < 16 }
        ensures { left self.new result ≡ left_by self.old.bus.image
            (exceptions.entered (exceptions.is_frame_open by_mpu self.old.bus.image (state_of self.old))
            self.old.bus.image exception return_address status (state_of self.old)) }
    {
        let frame = frame_at(self.core.sp);
        if !is_all_open(&self.bus, &mut self.protection, Access::Write, frame, 8) {
            return self.stop(StopReason::Stacking);
        }
        let words = frame_of(&self.core, return_address);
        push_words(&mut self.bus, frame, &words);
        take_exception(&mut self.core, self.bus.image(), exception);
        self.protection.set_handler(true);
        self.status = status;
        None
    }

    /// A supervisor call (SVC), with the address behind it.
    #[tactic(auto, unfolding(machine_model::specs::Perform::perform))]
    pub fn call(&mut self, next: u32) -> Option<Event>
        requires { self.old.core.sp % 4 ≡ 0 }
        ensures { left self.new result ≡ does (Calls next) self.old }
    {
        if self.protection.is_handler() {
            return self.stop(StopReason::Handler);
        }
        self.enter(SUPERVISOR_CALL, next, self.status)
    }

    /// A MemManage fault, with the status that it leaves; its return address is that of the instruction.
    fn fault(&mut self, status: FaultStatus) -> Option<Event>
        requires { self.old.core.sp % 4 ≡ 0 }
        ensures { left self.new result ≡ left_by self.old.bus.image
            (exceptions.fault by_mpu self.old.bus.image status (state_of self.old)) }
    {
        if self.protection.is_handler() {
            self.stop(StopReason::Handler)
        } else if self.status.shcsr.enables_faults() {
            self.enter(MEM_MANAGE, self.core.pc, status)
        } else {
            self.stop(StopReason::MemDisabled)
        }
    }

    /// A fetch that is not permitted sets IACCVIOL.
    pub fn fetch_fault(&mut self) -> Option<Event>
        requires { self.old.core.sp % 4 ≡ 0 }
        ensures { left self.new result ≡ left_by self.old.bus.image
            (exceptions.fetch_fault by_mpu self.old.bus.image (state_of self.old)) }
    {
        self.fault(self.status.after_fetch())
    }

    /// A load or store that is not permitted sets DACCVIOL and MMARVALID, and MMFAR to its address.
    pub fn data_fault(&mut self, address: u32) -> Option<Event>
        requires { self.old.core.sp % 4 ≡ 0 }
        ensures { left self.new result ≡ left_by self.old.bus.image
            (exceptions.data_fault by_mpu self.old.bus.image address (state_of self.old)) }
    {
        self.fault(self.status.after_access(address))
    }

    /// An exception return in Handler mode (B1.5.8), from PSP or from MSP. The words are tested as Thread mode
    /// would read them; where one may not be read, the machine stops and stays in Handler mode.
    pub fn return_from(&mut self, psp: bool) -> Option<Event>
        requires sp { self.old.core.sp % 4 ≡ 0 }
        requires other_sp { self.old.core.other_sp % 4 ≡ 0 }
        ensures { left self.new result ≡ left_by self.old.bus.image
            (exceptions.returns by_mpu self.old.bus.image psp (state_of self.old)) }
    {
        let frame = if psp {
            self.core.other_sp
        } else {
            self.core.sp
        };
        let handler = self.protection.is_handler();
        self.protection.set_handler(false);
        let is_open = is_all_open(&self.bus, &mut self.protection, Access::Read, frame, 8);
        self.protection.set_handler(handler);
        if !is_open {
            return self.stop(StopReason::Unstacking);
        }
        let mut words = ArrayVec::new();
        read_words(&self.bus, frame, 8, &mut words);
        let words = words.as_slice();
        if !is_thread(words[7]) {
            return self.stop(StopReason::Usage);
        }
        unstack(&mut self.core, psp, frame, words);
        self.protection.set_handler(false);
        None
    }
}
