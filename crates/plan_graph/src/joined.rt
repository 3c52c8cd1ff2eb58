//! The join of two covers.

ghost use Rattle.std.specs.Prelude.{◌≡◌, ◌<◌, ◌+◌, ◌-◌, ◌^◌, ◌/◌, true, length, map, IfOk, IfSome, option_map};
ghost use Rattle.std.specs.List.{range_with_len};
ghost use Rattle.plan_model.specs.Covers as definition;
ghost use Rattle.plan_model.specs.Merging as merging;
ghost use Rattle.plan_graph.specs.Choices.{pair_of, priced, cheapest_from, pairs_with};

use crate::choices::{Choice, cheaper};
use plan_model::graph::Cover;
use std::alloc::{AllocError, Global};

/// The first address behind a cover.
fn end_of(cover: &Cover) -> u64
    ensures { result ≡ definition.end_of cover.now }
{
    u64::from(cover.base) + u64::from(cover.size)
}

/// The first address of two covers.
fn lowest(one: &Cover, other: &Cover) -> u64
    ensures { result ≡ definition.lowest one.now other.now }
{
    u64::from(one.base.min(other.base))
}

/// The last address of two covers.
fn highest(one: &Cover, other: &Cover) -> u64
    ensures { result ≡ definition.highest one.now other.now }
{
    end_of(one).max(end_of(other)).saturating_sub(1)
}

/// How many bytes two covers take when they are joined.
pub(crate) fn joined_size(one: &Cover, other: &Cover) -> u64
    ensures size { result ≡ definition.joined_size one.now other.now }
    ensures some { 0 < result }
    ensures one_range { result < 2 ^ 32 → definition.lowest one.now other.now / result ≡ definition.highest one.now other.now / result }
{
    let low = lowest(one, other);
    let high = highest(one, other);
    for exponent in 5..32u32 {
        let size = 1u64 << exponent;
        if low / size == high / size {
            return size;
        }
    }
    1 << 32
}

/// The join of two covers, if 32 bits tell its size: the least aligned range of a power of two of bytes that holds both.
pub(crate) fn join_of(one: &Cover, other: &Cover) -> Option<Cover>
    ensures cover { IfSome result (λ cover. cover ≡ definition.joined one.now other.now) }
    ensures one { IfSome result (λ cover. definition.is_inside one.now cover ≡ true) }
    ensures other { IfSome result (λ cover. definition.is_inside other.now cover ≡ true) }
{
    let bytes = joined_size(one, other);
    let Ok(size) = u32::try_from(bytes) else {
        return None;
    };
    let low = one.base.min(other.base);
    Some(Cover {
        base: low / size * size,
        size,
    })
}

/// Whether all addresses of one cover are addresses of another.
fn is_inside(cover: &Cover, other: &Cover) -> bool
    ensures { result ≡ definition.is_inside cover.now other.now }
{
    other.base <= cover.base && end_of(cover) <= end_of(other)
}

/// Covers with one more, without those that it contains, in order of their bases.
///
/// # Errors
///
/// There is no memory for them.
pub(crate) fn with_cover(
    alloc: Global,
    covers: &[Cover],
    cover: Cover,
) -> Result<Vec<Cover>, AllocError>
    ensures { IfOk result (λ all. all.items ≡ definition.with_cover covers.now cover) }
{
    let mut all = Vec::new(alloc);
    all.push(cover)?;
    for i in 0..covers.len() {
        if !is_inside(&covers[i], &cover) {
            all.push(covers[i])?;
        }
    }
    all.sort_by(|a, b| a.base.cmp(&b.base))?;
    Ok(all)
}

/// The cheaper of a choice and the joins of a cover with those behind it.
fn with_later(covers: &[Cover], best: Option<Choice>, first: usize) -> Option<Choice>
    requires { first < length covers.now }
    ensures { result ≡ cheapest_from best (map (priced (merging.cover_cost covers.now)) (pairs_with first (range_with_len (first + 1) (length covers.now - (first + 1))))) }
{
    let mut best = best;
    for second in first + 1..covers.len() {
        let cost = joined_size(&covers[first], &covers[second]);
        best = cheaper(
            best,
            Choice {
                first,
                second,
                cost,
            },
        );
    }
    best
}

/// The two of these covers whose join is least, the earlier pair where several are, if there are two.
pub(crate) fn cover_pair(covers: &[Cover]) -> Option<Choice>
    ensures { option_map pair_of result ≡ merging.cover_pair covers.now }
{
    let mut best = None;
    for first in 0..covers.len() {
        best = with_later(covers, best, first);
    }
    best
}
