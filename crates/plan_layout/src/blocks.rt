//! Sizes of blocks.

ghost use Rattle.std.specs.Prelude.{◌≡◌};
ghost use Rattle.plan_model.specs.Blocks as blocks;

/// The size of the block for some bytes: the smallest power of two, from 32 on, that is not below them.
pub(crate) fn block_size(bytes: u32) -> u64
    ensures { result ≡ blocks.block_size_for bytes }
{
    u64::from(bytes).max(32).next_power_of_two()
}
