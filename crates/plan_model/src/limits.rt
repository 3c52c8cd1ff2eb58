//! The limits of what is compiled, beyond those of firmware texts.

/// The most compartments.
pub const COMPARTMENT_LIMIT: u32 = 64;

/// The most lendable locals, where there are two compartments or more.
pub const LENT_LIMIT: usize = 32;

/// The most crossing sites, the calls that may go to another compartment.
pub const SITE_LIMIT: usize = 4096;

/// The most targets of a crossing site.
pub const TARGET_LIMIT: usize = 64;

/// What a limit counts.
#[derive(Clone, Copy)]
pub enum LimitKind {
    /// Compartments.
    Compartments,
    /// Lendable locals, where there are two compartments or more.
    Lent,
    /// Crossing sites, the calls that may go to another compartment.
    Sites,
    /// Targets of one crossing site.
    Targets,
}
