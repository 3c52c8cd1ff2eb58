//! A few hundred numbers of a list.

ghost use Rattle.std.specs.Prelude.{◌≡◌, ◌++◌, ◌∷◌, [], true, false, length, slice_get, IfOk, OnOk, OnErr};
ghost use Rattle.need_numbers.specs.Rows.{has};
ghost use Rattle.need_numbers.specs.Stretches.{joined};

use crate::run::Run;
use std::alloc::{AllocError, Global};
use std::marker::Model;

/// How many runs a stretch has at most.
const RUNS: usize = 32;

/// Numbers in their order. Those at the beginning are in runs, of which each takes no more memory than two numbers.
pub(crate) struct Stretch {
    runs: Vec<Run>,
    others: Vec<u32>,
    count: u32,
}

impl Drop for Stretch {
    fn drop(self) {
        let Stretch {
            runs: _,
            others: _,
            count: _,
        } = self;
    }
}

impl Model for Stretch {
    ghost use Rattle.std.specs.Prelude.{◌≡◌, ℕ, List, ◌++◌, length};
    ghost use Rattle.need_numbers.specs.Stretches.{joined};

    ghost Value = { List ℕ };

    ghost view = { λ s. joined s.runs.items ++ s.others.items };

    ghost invariant = { λ s. s.count ≡ length (joined s.runs.items ++ s.others.items) };
}

/// Puts a number at the end of the last run, where that goes on with it, and answers whether it does.
fn prolong(runs: &mut Vec<Run>, number: u32) -> bool
    ensures longer { result ≡ true → joined runs.new.items ≡ joined runs.old.items ++ number ∷ [] }
    ensures kept { result ≡ false → joined runs.new.items ≡ joined runs.old.items }
{
    let count = runs.len();
    if count == 0 {
        return false;
    }
    runs[count - 1].push(number)
}

/// Whether one run more may take less memory than its numbers: the last has four numbers or more, or is among the first two.
fn has_room(runs: &[Run]) -> bool {
    let count = runs.len();
    count < 2 || (count < RUNS && runs[count - 1].len() >= 4)
}

/// Begins a run with a number, where a run may come, and answers whether it did.
#[tactic(auto, using(crate::proofs::Cuts::run_behind))]
fn begin(runs: &mut Vec<Run>, number: u32) -> Result<bool, AllocError>
    ensures longer { IfOk result (λ begun. begun ≡ true → joined runs.new.items ≡ joined runs.old.items ++ number ∷ []) }
    ensures kept { IfOk result (λ begun. begun ≡ false → joined runs.new.items ≡ joined runs.old.items) }
    ensures failed { OnErr result (joined runs.new.items ≡ joined runs.old.items) }
{
    let mut run = Run::new();
    if !has_room(runs.as_slice()) || !run.push(number) {
        return Ok(false);
    }
    runs.push(run)?;
    Ok(true)
}

/// Puts a number into the runs, where they go on with it, and answers whether they do.
fn put_in_runs(runs: &mut Vec<Run>, number: u32) -> Result<bool, AllocError>
    ensures longer { IfOk result (λ put. put ≡ true → joined runs.new.items ≡ joined runs.old.items ++ number ∷ []) }
    ensures kept { IfOk result (λ put. put ≡ false → joined runs.new.items ≡ joined runs.old.items) }
    ensures failed { OnErr result (joined runs.new.items ≡ joined runs.old.items) }
{
    if prolong(runs, number) {
        return Ok(true);
    }
    begin(runs, number)
}

/// Puts a number at the end of the runs, or of the others behind them.
fn put(runs: &mut Vec<Run>, others: &mut Vec<u32>, number: u32) -> Result<(), AllocError>
    ensures pushed { OnOk result (joined runs.new.items ++ others.new.items ≡ (joined runs.old.items ++ others.old.items) ++ number ∷ []) }
    ensures kept { OnErr result (joined runs.new.items ++ others.new.items ≡ joined runs.old.items ++ others.old.items) }
{
    if others.is_empty() && put_in_runs(runs, number)? {
        return Ok(());
    }
    others.push(number)?;
    Ok(())
}

/// Whether runs have a number.
#[tactic(auto, using(crate::proofs::Cuts::cut_rules))]
fn are_with(runs: &[Run], number: u32) -> bool
    ensures { result ≡ has number (joined runs.now) }
{
    for place in 0..runs.len() {
        if runs[place].contains(number) {
            return true;
        }
    }
    false
}

fn number_at(numbers: &[u32], place: usize) -> Option<u32>
    ensures { result ≡ slice_get numbers.now place }
{
    numbers.get(place).copied()
}

impl Stretch {
    /// No numbers.
    pub(crate) fn new(alloc: Global) -> Stretch
        ensures { result ≡ [] }
    {
        Stretch {
            runs: Vec::new(alloc),
            others: Vec::new(alloc),
            count: 0,
        }
    }

    /// Puts a number at the end.
    pub(crate) fn push(&mut self, number: u32) -> Result<(), AllocError>
        ensures pushed { OnOk result (self.new ≡ self.old ++ number ∷ []) }
        ensures kept { OnErr result (self.new ≡ self.old) }
    {
        let Some(count) = self.count.checked_add(1) else {
            return Err(AllocError);
        };
        put(&mut self.runs, &mut self.others, number)?;
        self.count = count;
        Ok(())
    }

    /// The number at a place; `None` if there is no such place.
    #[tactic(auto, using(crate::proofs::Cuts::in_runs, crate::proofs::Cuts::past_more, crate::proofs::Cuts::behind_runs))]
    pub(crate) fn get(&self, place: usize) -> Option<u32>
        ensures { result ≡ slice_get self.now place }
    {
        let mut rest = place;
        for at in 0..self.runs.len() {
            let count = self.runs[at].len();
            if rest < count {
                return self.runs[at].get(rest);
            }
            rest -= count;
        }
        number_at(self.others.as_slice(), rest)
    }

    /// Whether a number is among them.
    pub(crate) fn contains(&self, number: u32) -> bool
        ensures { result ≡ has number self.now }
    {
        are_with(self.runs.as_slice(), number) || self.others.contains(&number)
    }

    /// How many there are.
    pub(crate) fn len(&self) -> usize
        ensures { result ≡ length self.now }
    {
        self.count as usize
    }
}
