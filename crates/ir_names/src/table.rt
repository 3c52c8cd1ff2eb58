//! Names in order, with the place of each.

ghost use Rattle.std.specs.Prelude.{◌≡◌, List, ℕ, OnOk, OnErr, MatchOption, [], ◌∷◌, ◌++◌, length, ◌<◌, ◌≤◌, false, true};
ghost use Rattle.base_names.specs.Numbers.{has, number_of};

use base_names::Name;
use indexmap::IndexMap;
use std::alloc::{AllocError, Global};
use std::marker::Model;

/// Names in order, seen as a list, in which each is found at its first place.
pub struct Names<'a> {
    all: Vec<&'a [u8]>,
    places: IndexMap<&'a [u8], usize>,
}

impl Drop for Names<'_> {
    fn drop(self) {
        let Names { all: _, places: _ } = self;
    }
}

impl<'a> Model for Names<'a> {
    ghost use Rattle.std.specs.Prelude.{List, ℕ, map, ◌≡◌, bytes_eq};
    ghost use Rattle.indexmap.specs.IndexMap.{get};
    ghost use Rattle.ir_names.specs.Places.{place_in};

    ghost Value = { List (List ℕ) };

    ghost view = { λ n. map (λ k. k.now) n.all.items };

    ghost invariant = { λ n. (q : _) → get (λ a b. bytes_eq a.now b.now) n.places q ≡ place_in (map (λ k. k.now) n.all.items) q.now };
}

impl<'a> Names<'a> {
    /// No names.
    pub fn new(alloc: Global) -> Names<'a>
        ensures { result ≡ [] }
    {
        Names {
            all: Vec::new(alloc),
            places: IndexMap::new(alloc),
        }
    }

    /// Puts a name behind the others.
    pub fn push(&mut self, name: &'a Name) -> Result<(), AllocError>
        ensures grows { OnOk result (self.new ≡ self.old ++ name.now ∷ []) }
        ensures kept { OnErr result (self.new ≡ self.old) }
    {
        let word = name.as_slice();
        let place = self.all.len();
        self.all.push(word)?;
        if self.places.contains_key(word) {
            return Ok(());
        }
        let Ok(_) = self.places.insert(word, place) else {
            self.all.pop();
            return Err(AllocError);
        };
        Ok(())
    }

    /// How many names there are, counting one that is there twice as two.
    pub fn len(&self) -> usize
        ensures { result ≡ length self.now }
    {
        self.all.len()
    }

    /// The first place of a word; `None` if it is absent.
    pub fn find(&self, word: &[u8]) -> Option<usize>
        ensures { MatchOption result (has self.now word.now ≡ false) (λ k. (has self.now word.now ≡ true) × ((k ≡ number_of self.now word.now) × (k < length self.now))) }
    {
        self.places.get(word).copied()
    }

    /// The first place of a name; `None` if it is absent.
    pub fn number(&self, name: &Name) -> Option<usize>
        ensures { MatchOption result (has self.now name.now ≡ false) (λ k. (has self.now name.now ≡ true) × ((k ≡ number_of self.now name.now) × (k < length self.now))) }
    {
        self.find(name.as_slice())
    }

    /// The first place of a word, or the number of names if it is absent.
    pub fn find_or_len(&self, word: &[u8]) -> usize
        ensures exact { result ≡ number_of self.now word.now }
        ensures most { result ≤ length self.now }
    {
        match self.find(word) {
            Some(place) => place,
            None => self.len(),
        }
    }

    /// The first place of a name, or the number of names if it is absent.
    pub fn number_or_len(&self, name: &Name) -> usize
        ensures exact { result ≡ number_of self.now name.now }
        ensures most { result ≤ length self.now }
    {
        self.find_or_len(name.as_slice())
    }

    /// Whether a name is among these.
    pub fn has(&self, name: &Name) -> bool
        ensures { result ≡ has self.now name.now }
    {
        self.number(name).is_some()
    }
}
