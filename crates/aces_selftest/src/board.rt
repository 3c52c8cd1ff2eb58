//! The board of self-tests.

ghost use Rattle.std.specs.Prelude.{◌≡◌};
ghost use Rattle.aces_selftest.specs.TestBoard as boards;

use base_lists::ListVec;
use plan_model::plan::{Board, Lowest};
use std::alloc::Global;

/// The board for which generated firmwares are compiled.
pub(crate) fn test_board(alloc: Global) -> Board
    ensures { result ≡ boards.test_board }
{
    Board {
        flash_base: 0x0800_0000,
        flash_size: 0x4_0000,
        ram_base: 0x2000_0000,
        ram_size: 0x1_0000,
        stack: 2048,
        lowest: Lowest::Largest,
        regions: 8,
        closed: false,
        denied: ListVec::new(Vec::new(alloc)),
    }
}
