//! The machine by its definition: the laws of its steps and runs, for any bytes that it executes, and the states that a reset leaves.
#![tactic(auto)]

pub mod answers;
pub mod any_step;
mod fault_registers;
pub mod laws;
mod protection;
mod registers;
pub mod resets;
pub mod running;
pub mod state;

/// CCR, the address of the configuration and control register (Armv7-M ARM, B3.2.8).
pub const CCR: u32 = 0xE000ED14;
/// SHCSR, the address of the system handler control and state register (B3.2.13).
pub const SHCSR: u32 = 0xE000ED24;
/// CFSR, the address of the configurable fault status register (B3.2.15).
pub const CFSR: u32 = 0xE000ED28;
/// MMFAR, the address of the MemManage fault address register (B3.2.17).
pub const MMFAR: u32 = 0xE000ED34;
