//! Pairs whose nodes and objects are lists of their own.

ghost use Rattle.std.specs.Prelude.{◌≡◌, ◌++◌, ◌∷◌, [], is_some, not, slice_get, OnOk};

use need_numbers::Numbers;
use need_sets::Pair;
use std::alloc::{AllocError, Global};
use std::marker::Model;

/// Pairs whose nodes and objects are lists of their own. Many of one node with objects that follow one another, or of one object with such
/// nodes, take little memory.
pub(crate) struct Columns {
    nodes: Numbers,
    objects: Numbers,
}

impl Drop for Columns {
    fn drop(self) {
        let Columns {
            nodes: _,
            objects: _,
        } = self;
    }
}

impl Model for Columns {
    ghost use Rattle.std.specs.Prelude.{◌≡◌, List, length};
    ghost use Rattle.need_sets.specs.declared.rules.Pair.{Pair as FoundPair};
    ghost use Rattle.need_solving.specs.Logs.{pairs_of};

    ghost Value = { List FoundPair };

    ghost view = { λ c. pairs_of c.nodes c.objects };

    ghost invariant = { λ c. length c.nodes ≡ length c.objects };
}

impl Columns {
    /// No pairs.
    pub(crate) fn new(alloc: Global) -> Columns
        ensures { result ≡ [] }
    {
        Columns {
            nodes: Numbers::new(alloc),
            objects: Numbers::new(alloc),
        }
    }

    /// Whether there are none.
    pub(crate) fn is_empty(&self) -> bool
        ensures { is_some (slice_get self.now 0) ≡ not result }
    {
        self.get(0).is_none()
    }

    /// Puts a pair at the end. Where there is no memory for it, no pair is left.
    #[tactic(auto, using(crate::proofs::LogPairs::pushed))]
    pub(crate) fn push(&mut self, pair: Pair) -> Result<(), AllocError>
        ensures { OnOk result (self.new ≡ self.old ++ pair ∷ []) }
    {
        self.nodes.push(pair.node)?;
        let Ok(()) = self.objects.push(pair.object) else {
            self.nodes.clear();
            self.objects.clear();
            return Err(AllocError);
        };
        Ok(())
    }

    /// The pair at a place; `None` if there is no such place.
    #[tactic(auto, using(crate::proofs::LogPairs::stands, crate::proofs::LogPairs::no_node, crate::proofs::LogPairs::no_object))]
    pub(crate) fn get(&self, place: usize) -> Option<Pair>
        ensures { result ≡ slice_get self.now place }
    {
        let node = self.nodes.get(place)?;
        let object = self.objects.get(place)?;
        Some(Pair { node, object })
    }
}
