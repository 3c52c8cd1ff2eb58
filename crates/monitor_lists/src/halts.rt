//! The numbers with which the monitor halts the machine.

/// The program is at its end.
pub const HALT_END: u8 = 0;
/// The SVC has no number of the monitor's.
pub const HALT_NUMBER: u8 = 1;
/// The SVC of a call does not stand at a site.
pub const HALT_SITE: u8 = 2;
/// The site has no target with the entry that is asked for.
pub const HALT_TARGET: u8 = 3;
/// The frame does not lie in the open stack, or has a pad.
pub const HALT_STACK: u8 = 4;
/// The stack has no whole eighth left for a callee.
pub const HALT_LIMIT: u8 = 5;
/// A loan may not be made, or there is none that the running function made.
pub const HALT_LOAN: u8 = 6;
/// A store is refused, and no loan allows it.
pub const HALT_STORE: u8 = 7;
/// A fault that is no refused access of a loan's kind.
pub const HALT_FAULT: u8 = 8;
/// A load is refused, and no loan allows it.
pub const HALT_LOAD: u8 = 9;
/// The protection unit has another number of regions than the tables are for, or there is none.
pub const HALT_UNIT: u8 = 10;
