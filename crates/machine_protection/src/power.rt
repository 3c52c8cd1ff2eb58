//! Powers of two, the sizes of regions.

ghost use Rattle.std.specs.Prelude.{◌≡◌, ◌↔◌, IsSome, IfSome};
ghost use Rattle.std.specs.Int.{IsPowerOfTwo};

use std::marker::Model;

/// A power of two below 2^32, which contracts see as that number.
#[derive(Clone, Copy, PartialEq, Eq, Debug)]
pub struct Pow2 {
    number: u32,
}

impl Model for Pow2 {
    ghost use Rattle.std.specs.Prelude.{ℕ};
    ghost use Rattle.std.specs.Int.{IsPowerOfTwo};

    ghost Value = { ℕ };

    ghost view = { λ p. p.number };

    ghost inverse = { λ n. record { number = n } };

    ghost invariant = { λ p. IsPowerOfTwo p.number };
}

impl Pow2 {
    /// The power of two that `n` is: None exactly where it is none.
    #[tactic(auto, using(crate::proofs::Powers::zero_is_none, crate::proofs::Powers::between_is_none))]
    pub fn new(n: u32) -> Option<Pow2>
        ensures power { IsSome result ↔ IsPowerOfTwo n }
        ensures number { IfSome result (λ power. power ≡ n) }
    {
        if n == 0 {
            return None;
        }
        if n == 1 << n.ilog2() {
            Some(Pow2 { number: n })
        } else {
            None
        }
    }

    /// The number.
    pub fn get(self) -> u32
        ensures number { result ≡ self }
        ensures power { IsPowerOfTwo result }
    {
        self.number
    }
}
