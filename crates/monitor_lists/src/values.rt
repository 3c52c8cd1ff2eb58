//! Sizes, limits and values of system registers that the lists hold, whatever the tables.

/// The size of a stacked frame, in bytes.
pub const FRAME_SIZE: u32 = 32;
/// The size of a loan in the monitor's block, in bytes.
pub const LOAN_SIZE: u32 = 12;
/// The size of a target's record, in bytes.
pub const TARGET_SIZE: u32 = 8;
/// The size of the record of a range that start-up fills, in bytes.
pub const INIT_SIZE: u32 = 12;

/// The greatest number of live loans.
pub const MOST_LOANS: u32 = 32;
/// The greatest number of a site's targets.
pub const MOST_TARGETS: u32 = 64;
/// The number of no compartment.
pub const NO_COMPARTMENT: u32 = 0xFFFF_FFFF;

/// MPU_CTRL with the protection unit off.
pub const UNIT_OFF: u32 = 0;
/// MPU_CTRL with the protection unit on, and the background for privileged code: ENABLE and PRIVDEFENA.
pub const UNIT_ON: u32 = 5;
/// How far to the left SRD stands in MPU_RASR.
pub const SRD_SHIFT: u32 = 8;
/// SRD with all eighths taken out.
pub const ALL_EIGHTHS: u32 = 0xFF;
/// The bit of a stacked xPSR that tells of a pad.
pub const PADDED: u32 = 1 << 9;
/// The xPSR of a thread: the T bit alone.
pub const THREAD_XPSR: u32 = 0x0100_0000;
/// CFSR's DACCVIOL and MMARVALID: a refused data access whose address is known.
pub const REFUSED_ACCESS: u32 = 0x82;
/// CCR's STKALIGN and UNALIGN_TRP.
pub const TRAPS_ON: u32 = 0x208;
/// SHCSR's MEMFAULTENA.
pub const FAULTS_ON: u32 = 0x10000;
/// CONTROL of a thread: unprivileged, on PSP.
pub const UNPRIVILEGED: u32 = 3;
