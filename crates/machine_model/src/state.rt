//! The parts of a machine's state, and the ways in which a run ends.

use crate::fault_registers::{FaultCauses, HandlerControl};
use base_words::conditions::Flags;
use machine_protection::unit::Mpu;

/// The core registers (Armv7-M Architecture Reference Manual, B1.4.1), the flags, and CONTROL.SPSEL.
#[derive(Clone, Copy)]
pub struct CoreRegisters {
    /// r0 to r7.
    pub low: [u32; 8],
    /// r8 to r12.
    pub high: [u32; 5],
    /// The stack pointer in use.
    pub sp: u32,
    /// The banked stack pointer that is not in use.
    pub other_sp: u32,
    /// Whether the stack pointer in use is PSP.
    pub on_psp: bool,
    /// The link register.
    pub lr: u32,
    /// The place of the next instruction; after an end, of the last.
    pub pc: u32,
    /// The condition flags of the APSR.
    pub flags: Flags,
}

/// What decides which accesses are allowed.
#[derive(Drop)]
pub struct ProtectionState {
    /// Whether the machine is in Handler mode.
    pub handler: bool,
    /// CONTROL.nPRIV.
    pub unprivileged: bool,
    /// The protection unit.
    pub mpu: Mpu,
}

/// The system registers that tell of faults (B3.2.13 to B3.2.17).
#[derive(Clone, Copy)]
pub struct FaultStatus {
    /// SHCSR.
    pub shcsr: HandlerControl,
    /// CFSR.
    pub cfsr: FaultCauses,
    /// MMFAR, the address of the last refused load or store.
    pub mmfar: u32,
}

/// Why a machine stopped.
#[derive(Clone, Copy, PartialEq, Eq)]
pub enum StopReason {
    /// An access at no multiple of its width.
    Unaligned,
    /// An access that the bus does not map, or an unprivileged one of the system registers.
    Bus,
    /// A MemManage fault while its exception is not enabled.
    MemDisabled,
    /// The words of an exception entry cannot be pushed.
    Stacking,
    /// The words of an exception return cannot be read.
    Unstacking,
    /// A fault or a supervisor call in Handler mode.
    Handler,
    /// A branch to an even address, or an exception return to no Thread state.
    Usage,
    /// Halfwords that are no instruction of the table.
    Undefined,
}

/// How a run ends.
#[derive(Clone, Copy, PartialEq, Eq)]
pub enum End {
    /// BKPT, with its number.
    Halt(u8),
    /// A peripheral load found no recorded word.
    InputEnd,
    /// The steps asked for ran without an end.
    Limit,
    /// A fault that no handler takes.
    Stop {
        /// Its reason.
        reason: StopReason,
        /// The address of the instruction.
        pc: u32,
    },
    /// The caller refused an event.
    Refused,
}
