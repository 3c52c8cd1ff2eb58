//! Sums of numbers, the greatest and the least of them.

ghost use Rattle.std.specs.Prelude.{◌≡◌, ◌<◌, ◌^◌, IfSome, sum, filter, nat_lt, nat_eq};
ghost use Rattle.plan_model.specs.Choices as choices;
ghost use Rattle.plan_layout.specs.Lowest as lowest;

/// The sum of some numbers, where 64 bits tell it.
pub(crate) fn sum(numbers: &[u64]) -> Option<u64>
    ensures { IfSome result (λ total. total ≡ sum numbers.now) }
{
    let mut total = 0u64;
    for number in numbers {
        total = total.checked_add(*number)?;
    }
    Some(total)
}

/// The sum of the numbers that are greater than one.
pub(crate) fn sum_above(numbers: &[u64], least: u64) -> u64
    requires { sum numbers.now < 2 ^ 64 }
    ensures { result ≡ sum (filter (λ n. nat_lt least n) numbers.now) }
{
    let mut total = 0u64;
    for number in numbers {
        if *number > least {
            total += *number;
        }
    }
    total
}

/// The sum of the numbers that are equal to one.
pub(crate) fn sum_equal(numbers: &[u64], same: u64) -> u64
    requires { sum numbers.now < 2 ^ 64 }
    ensures { result ≡ sum (filter (λ n. nat_eq n same) numbers.now) }
{
    let mut total = 0u64;
    for number in numbers {
        if *number == same {
            total += *number;
        }
    }
    total
}

/// The greatest number, or 0 where there is none.
pub(crate) fn greatest(numbers: &[u64]) -> u64
    ensures { result ≡ choices.greatest numbers.now }
{
    let mut most = 0u64;
    for number in numbers {
        most = most.max(*number);
    }
    most
}

/// The place of the first of the greatest numbers.
pub(crate) fn first_greatest(numbers: &[u64]) -> Option<usize>
    ensures { result ≡ choices.first_greatest numbers.now }
{
    let most = greatest(numbers);
    for (place, number) in numbers.iter().enumerate() {
        if *number == most {
            return Some(place);
        }
    }
    None
}

/// The lesser of two numbers that may be missing.
pub(crate) fn lesser(a: Option<u32>, b: Option<u32>) -> Option<u32>
    ensures { result ≡ lowest.lesser a b }
{
    match (a, b) {
        (None, b) => b,
        (a, None) => a,
        (Some(a), Some(b)) => Some(a.min(b)),
    }
}

/// The least number, if there is one.
pub(crate) fn least(numbers: &[u32]) -> Option<u32>
    ensures { result ≡ lowest.least numbers.now }
{
    let mut least = None;
    for number in numbers {
        least = lesser(least, Some(*number));
    }
    least
}
