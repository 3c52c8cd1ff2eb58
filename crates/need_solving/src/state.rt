//! Where a search stands.

use crate::log::Log;
use need_numbers::Rows;
use need_sets::Pairs;

/// Where a search stands.
#[derive(Drop)]
pub(crate) struct State {
    /// The pairs that were found.
    pub(crate) pairs: Pairs,
    /// The nodes to which each node was found to be passed on.
    pub(crate) edges: Rows,
    /// The pairs in the order in which they were found.
    pub(crate) log: Log,
    /// How many of them were looked at.
    pub(crate) next: usize,
}
