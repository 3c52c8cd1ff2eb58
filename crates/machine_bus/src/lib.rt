//! Memory, peripheral windows and recorded device input: what lies at an address of a machine.
#![tactic(auto)]

pub mod answer;
pub mod bus;
pub mod laws;
mod target;

pub use base_events::event::Event;
pub use machine_devices::image::{Image, Window};
pub use machine_devices::tape::{Tape, TapeFault};
