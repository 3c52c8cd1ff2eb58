//! Places of words, counted in words: in the monitor's block, in a stacked frame, and in the records of the tables.

/// In the monitor's block: the number of the running compartment.
pub const CUR: u8 = 0;
/// In the monitor's block: the address behind the stack that the running compartment may use.
pub const TOP: u8 = 1;
/// In the monitor's block: how many entries are saved.
pub const DEPTH: u8 = 2;
/// In the monitor's block: how many loans are live.
pub const LOANS: u8 = 3;
/// In the monitor's block: how many loans were live when the running compartment was entered.
pub const MARK: u8 = 4;

/// In the monitor's block: the caller's PSP, in the first saved entry.
pub const SAVED_PSP: u8 = 8;
/// In the monitor's block: the caller's CUR, in the first saved entry.
pub const SAVED_CUR: u8 = 9;
/// In the monitor's block: the caller's TOP, in the first saved entry.
pub const SAVED_TOP: u8 = 10;
/// In the monitor's block: the caller's MARK, in the first saved entry.
pub const SAVED_MARK: u8 = 11;

/// In the monitor's block: its first loan, which is this many bytes behind the block's beginning.
pub const LOANS_OFFSET: u32 = 160;

/// In a loan: the address of the local.
pub const LOAN_FROM: u8 = 0;
/// In a loan: the address behind the local.
pub const LOAN_END: u8 = 1;
/// In a loan: the number of the local.
pub const LOAN_NUMBER: u8 = 2;

/// In a stacked frame: r0.
pub const FRAME_R0: u8 = 0;
/// In a stacked frame: r1.
pub const FRAME_R1: u8 = 1;
/// In a stacked frame: r2.
pub const FRAME_R2: u8 = 2;
/// In a stacked frame: r3.
pub const FRAME_R3: u8 = 3;
/// In a stacked frame: r12.
pub const FRAME_R12: u8 = 4;
/// In a stacked frame: the link register.
pub const FRAME_LR: u8 = 5;
/// In a stacked frame: the return address.
pub const FRAME_RETURN: u8 = 6;
/// In a stacked frame: the xPSR.
pub const FRAME_XPSR: u8 = 7;

/// In the record of a compartment: the two words of region 2.
pub const RECORD_CODE: u8 = 0;
/// In the record of a compartment: the two words of its first slot.
pub const RECORD_SLOTS: u8 = 2;

/// In the record of a site: its return address.
pub const SITE_RETURN: u8 = 0;
/// In the record of a site: the number of its first target.
pub const SITE_FIRST: u8 = 1;
/// In the record of a site: how many targets it has.
pub const SITE_COUNT: u8 = 2;

/// In the record of a target: its entry, with bit 0 set.
pub const TARGET_ENTRY: u8 = 0;
/// In the record of a target: its compartment.
pub const TARGET_COMPARTMENT: u8 = 1;

/// In the record of a range that start-up fills: its first address in RAM.
pub const INIT_AT: u8 = 0;
/// In the record of a range that start-up fills: the address behind it in RAM.
pub const INIT_END: u8 = 1;
/// In the record of a range that start-up fills: the address of its words in flash.
pub const INIT_FROM: u8 = 2;

/// Of a region, in a record and from MPU_RBAR on: MPU_RBAR.
pub const REGION_RBAR: u8 = 0;
/// Of a region, in a record and from MPU_RBAR on: MPU_RASR.
pub const REGION_RASR: u8 = 1;
