//! Pairs in the order in which they were found.

ghost use Rattle.std.specs.Prelude.{◌≡◌, ◌++◌, ◌∷◌, [], slice_get, OnOk};

use crate::columns::Columns;
use need_sets::Pair;
use std::alloc::{AllocError, Global};
use std::marker::Model;

/// How many pairs stand by themselves at most.
const FIRST: usize = 4_096;

/// Pairs in the order in which they were found. The first 4,096 stand by themselves, of eight bytes each; those behind them are in columns, where
/// many take less memory.
pub(crate) struct Log {
    first: Vec<Pair>,
    others: Columns,
}

impl Drop for Log {
    fn drop(self) {
        let Log {
            first: _,
            others: _,
        } = self;
    }
}

impl Model for Log {
    ghost use Rattle.std.specs.Prelude.{List, ◌++◌};
    ghost use Rattle.need_sets.specs.declared.rules.Pair.{Pair as FoundPair};

    ghost Value = { List FoundPair };

    ghost view = { λ l. l.first.items ++ l.others };
}

/// The pair at a place of a slice; `None` if there is no such place.
fn pair_at(pairs: &[Pair], place: usize) -> Option<Pair>
    ensures { result ≡ slice_get pairs.now place }
{
    pairs.get(place).copied()
}

impl Log {
    /// No pairs.
    pub(crate) fn new(alloc: Global) -> Log
        ensures { result ≡ [] }
    {
        Log {
            first: Vec::new(alloc),
            others: Columns::new(alloc),
        }
    }

    /// Puts a pair at the end. Where there is no memory for it, pairs may be lost.
    #[tactic(auto, using(crate::proofs::LogPairs::behind_first))]
    pub(crate) fn push(&mut self, pair: Pair) -> Result<(), AllocError>
        ensures { OnOk result (self.new ≡ self.old ++ pair ∷ []) }
    {
        if self.first.len() < FIRST && self.others.is_empty() {
            self.first.push(pair)?;
            return Ok(());
        }
        self.others.push(pair)
    }

    /// The pair at a place; `None` if there is no such place.
    #[tactic(auto, using(crate::proofs::LogPairs::among_first, crate::proofs::LogPairs::among_others))]
    pub(crate) fn get(&self, place: usize) -> Option<Pair>
        ensures { result ≡ slice_get self.now place }
    {
        let count = self.first.len();
        if place < count {
            pair_at(self.first.as_slice(), place)
        } else {
            self.others.get(place - count)
        }
    }
}
