//! What the words behind the program's name ask for.
#![tactic(auto)]

mod command;
mod firmwares;
mod images;
mod numbers;
mod plans;

pub use command::Command;
pub use firmwares::FirmwareCommand;
pub use images::ImageCommand;
pub use numbers::address;
pub use plans::PlanCommand;
