//! The answer to an image.

use monitor_model::{AuditCheck, Tables};

/// The answer to an image.
#[derive(Clone, Copy)]
pub enum Audit {
    /// No check fails.
    Yes {
        /// How many compartments it has.
        compartments: u32,
        /// How many crossing sites it has.
        sites: u32,
    },
    /// A check fails.
    No {
        /// The first that does.
        check: AuditCheck,
        /// The address at which it does first.
        at: u32,
    },
}

/// A check that fails.
#[derive(Clone, Copy)]
pub struct FailedCheck {
    /// Which one.
    pub check: AuditCheck,
    /// The address at which it fails first.
    pub at: u32,
}

/// What the checks find of an image.
#[derive(Drop)]
pub enum Audited {
    /// None fails: the tables in its flash.
    Sound(Tables),
    /// The first that fails.
    Unsound(FailedCheck),
}
