//! What the words of a region tell.

ghost use Rattle.std.specs.Prelude.{◌≡◌, ◌<◌, ◌≤◌, ◌^◌};
ghost use Rattle.machine_protection.specs.Regions as regions;
ghost use Rattle.monitor_model.specs.RegionChecks as checks;

use machine_protection::region::Region;

/// The address of a region: RBAR.ADDR with 0 in its five low bits.
pub fn base_of(region: &Region) -> u64
    ensures exact { result ≡ checks.base_of region.now }
    ensures small { result < 2 ^ 32 }
{
    u64::from(region.rbar / 32 * 32)
}

/// The exponent of the number of bytes, one more than RASR.SIZE.
pub fn size_log(region: &Region) -> u32
    ensures exact { result ≡ regions.size_log region.now }
    ensures least { 1 ≤ result }
    ensures most { result ≤ 32 }
{
    region.rasr / 2 % 32 + 1
}

/// How many bytes a region has, from 2 to 2^32.
pub fn size_of(region: &Region) -> u64
    ensures exact { result ≡ checks.size_of region.now }
    ensures least { 1 ≤ result }
    ensures most { result ≤ 2 ^ 32 }
{
    1 << size_log(region)
}

/// The eighths that are taken out, bit i for the i-th from below: RASR.SRD.
pub fn taken_out(region: &Region) -> u32
    ensures exact { result ≡ checks.taken_out region.now }
    ensures small { result < 2 ^ 8 }
{
    region.rasr / 256 % 256
}
