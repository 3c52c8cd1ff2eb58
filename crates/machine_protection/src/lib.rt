//! The memory protection unit of Armv7-M (PMSAv7): its regions, what they allow, and its registers.
#![tactic(auto)]

mod control;
pub mod laws;
pub mod power;
pub mod region;
pub mod unit;
pub mod words;

/// MPU_TYPE, the address of the register that tells the number of regions (Armv7-M ARM, B3.5.5).
pub const MPU_TYPE: u32 = 0xE000ED90;
/// MPU_CTRL, the address of the control register (B3.5.6).
pub const MPU_CTRL: u32 = 0xE000ED94;
/// MPU_RNR, the address of the region number register (B3.5.7).
pub const MPU_RNR: u32 = 0xE000ED98;
/// MPU_RBAR, the address of the region base address register (B3.5.8).
pub const MPU_RBAR: u32 = 0xE000ED9C;
/// MPU_RASR, the address of the region attribute and size register (B3.5.9).
pub const MPU_RASR: u32 = 0xE000EDA0;
