//! The sizes that are counted of tables: their initial words, the greatest code region, and the block for so many bytes.

ghost use Rattle.std.specs.Prelude.{◌≡◌, ℕ, ◌*◌, ◌<◌, ◌≤◌, ◌^◌, length, min, sum_by};
ghost use Rattle.plan_model.specs.Blocks.{block_size_for};
ghost use Rattle.monitor_model.specs.Records.{words_in};
ghost use Rattle.monitor_model.specs.Layout as layout;
ghost use Rattle.monitor_constants.specs.Sizes.{most};

use monitor_model::{CompRecord, InitRecord};

/// How many words start-up copies into these ranges, or as many as fit 64 bits.
pub fn word_count(inits: &[InitRecord]) -> u64
    ensures exact { result ≡ min (sum_by words_in inits.now) most }
    ensures small { result ≤ 2 ^ 30 * length inits.now }
    ensures whole { length inits.now < 2 ^ 32 → result ≡ sum_by words_in inits.now }
{
    let mut count: u64 = 0;
    for init in inits {
        count = count.saturating_add(u64::from(init.end.saturating_sub(init.at) / 4));
    }
    count
}

/// The bytes of the greatest code region, by SIZE of its MPU_RASR; 0 where there is no compartment.
pub fn greatest_code(comps: &[CompRecord]) -> u64
    ensures exact { result ≡ layout.greatest_code comps.now }
    ensures small { result ≤ 2 ^ 32 }
{
    let mut size: u64 = 0;
    for compartment in comps {
        size = size.max(1 << (compartment.code.rasr / 2 % 32 + 1));
    }
    size
}

/// The block for so many bytes; of more than fit 64 bits it is the greatest.
pub fn block_of(bytes: u64) -> u64
    ensures exact { (n : ℕ) → bytes ≡ min n most → result ≡ block_size_for n }
    ensures small { result ≤ 2 ^ 32 }
{
    if bytes > 1 << 32 {
        1 << 32
    } else {
        bytes.max(32).next_power_of_two()
    }
}
