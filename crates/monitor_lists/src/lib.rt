//! The monitor's lists in the making: start-up, the handler of SVC and the handler of MemManage.
#![tactic(auto)]

mod halts;
mod list;
pub mod memfault;
mod numbers;
mod opening;
pub mod reset;
pub mod svc;
pub mod values;

pub use list::StepList;
pub use numbers::Numbers;
