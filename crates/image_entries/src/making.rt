//! What the code of all functions is made of.

use crate::numbers::Numbers;
use code_model::Addresses;
use ir_program::program::Program;
use plan_model::plan::Plan;

/// What the code of all functions is made of.
#[derive(Clone, Copy)]
pub struct Making<'a> {
    /// The firmware.
    pub program: &'a Program<'a>,
    /// Where code and data lie.
    pub plan: &'a Plan,
    /// The compartment of each function.
    pub compartments: &'a [u32],
    /// The numbers of its calls' sites and of its lent locals.
    pub numbers: &'a Numbers,
    /// Where all that its code names lies.
    pub addresses: &'a Addresses,
}
