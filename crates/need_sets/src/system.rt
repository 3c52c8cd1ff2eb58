//! A system of constraints.

use crate::Numbering;
use crate::rules::Rules;
use ir_program::program::Program;

/// A system of constraints: what a search goes by.
pub struct System<'a> {
    /// The program, by whose functions calls are followed.
    pub program: &'a Program<'a>,
    /// How its nodes and objects are numbered.
    pub numbering: Numbering,
    /// What the pairs have to obey.
    pub rules: Rules<'a>,
}

impl Drop for System<'_> {
    fn drop(self) {
        let System {
            program: _,
            numbering: _,
            rules: _,
        } = self;
    }
}
