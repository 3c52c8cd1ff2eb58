//! Pairs of a node and an object, by their numbers.

ghost use Rattle.std.specs.Prelude.{◌≡◌, ◌+◌, ◌<◌, [], length, not, replicate, slice_get, IfOk, OnOk, OnErr, IfSome};
ghost use Rattle.std.specs.List.{sum};
ghost use Rattle.ir_laws.specs.Sets.{Node};
ghost use Rattle.ir_model.specs.State.{Object};
ghost use Rattle.ir_program.specs.Seen.{program_of};
ghost use Rattle.need_sets.specs.Numbers.{numbering_of};
ghost use Rattle.need_numbers.specs.Rows.{has, row, added};
ghost use Rattle.need_sets.specs.Sets.{sets_of};
ghost use Rattle.need_sets.specs.Pairs.{ObjectRows, sets_by};

use crate::PointsTo;
use crate::finish::finish;
use ir_program::program::Program;
use need_numbers::{Rows, StepCount};
use std::alloc::{AllocError, Global};
use std::marker::Model;
use std::sync::ledger::Ledger;

/// Pairs of a node and an object, by their numbers: for each node the list of its objects, in the order in which they came.
pub struct Pairs {
    rows: Rows,
    objects: u32,
}

impl Drop for Pairs {
    fn drop(self) {
        let Pairs {
            rows: _,
            objects: _,
        } = self;
    }
}

impl Model for Pairs {
    ghost use Rattle.need_sets.specs.Pairs.{ObjectRows, IsWithin};

    ghost Value = { ObjectRows };

    ghost view = { λ p. record { objects = p.objects; rows = p.rows } };

    ghost invariant = { λ p. IsWithin p.objects p.rows };
}

impl Pairs {
    /// No pair, over `nodes` nodes and `objects` objects.
    ///
    /// # Errors
    ///
    /// There is no memory for them.
    pub fn new(alloc: Global, nodes: u32, objects: u32) -> Result<Pairs, AllocError>
        ensures { IfOk result (λ p. p ≡ record { objects = objects; rows = replicate nodes [] }) }
    {
        let rows = Rows::new(alloc, nodes)?;
        Ok(Pairs { rows, objects })
    }

    /// Puts an object at the end of a node's list, where the node does not have it, and answers whether it is new. One step.
    ///
    /// # Errors
    ///
    /// There is no memory for it. Then the pairs are as they were.
    pub fn add<L: Ledger>(
        &mut self,
        node: u32,
        object: u32,
        steps: &mut StepCount<L>,
    ) -> Result<bool, AllocError>
        requires node { node < length self.old.rows }
        requires object { object < self.old.objects }
        ensures is_new { IfOk result (λ new. new ≡ not (has object (row self.old.rows node))) }
        ensures added { OnOk result (self.new.rows ≡ added self.old.rows node object) }
        ensures objects { self.new.objects ≡ self.old.objects }
        ensures kept { OnErr result (self.new.rows ≡ self.old.rows) }
        ensures counted { steps.new ≡ steps.old + 1 }
    {
        steps.tick();
        self.rows.add(node, object)
    }

    /// The object at a place of a node's list, from 0; `None` if the list has no such place. One step.
    pub fn member<L: Ledger>(&self, node: u32, place: u32, steps: &mut StepCount<L>) -> Option<u32>
        requires node { node < length self.now.rows }
        ensures exact { result ≡ slice_get (row self.now.rows node) place }
        ensures within { IfSome result (λ object. object < self.now.objects) }
        ensures counted { steps.new ≡ steps.old + 1 }
    {
        steps.tick();
        self.rows.get(node, place)
    }
    /// The sets of objects of a program that the pairs are: for each node its objects, in rising order.
    ///
    /// # Errors
    ///
    /// There is no memory for them.
    pub fn into_sets(self, alloc: Global, program: &Program) -> Result<PointsTo, AllocError>
        requires nodes { length self.rows ≡ sum (numbering_of (program_of program.now)).nodes }
        requires objects { self.objects ≡ sum (numbering_of (program_of program.now)).objects }
        ensures numbers { IfOk result (λ sets. sets.numbers ≡ numbering_of (program_of program.now)) }
        ensures exact { IfOk result (λ sets. (n : Node) (o : Object) → sets_of sets n o ≡ sets_by (numbering_of (program_of program.now)) self.rows n o) }
    {
        finish(alloc, program, &self.rows)
    }
}
