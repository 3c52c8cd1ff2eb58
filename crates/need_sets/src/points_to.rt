//! Sets of objects, in order.

ghost use Rattle.std.specs.Prelude.{◌≡◌, true, get_or, []};
ghost use Rattle.std.specs.List.Sorted.{IsStrictlySortedBy};
ghost use Rattle.ir_model.specs.Objects.{object_by, compare_objects};
ghost use Rattle.plan_model.specs.Lists.{ListsExactly};
ghost use Rattle.need_sets.specs.Nodes.{node_by};
ghost use Rattle.need_sets.specs.Sets.{AreInOrder, sets_of};

use crate::node::Node;
use crate::numbering::Numbering;
use crate::shared_rows::SharedRows;
use ir_model::object::ObjId;
use std::marker::Model;

/// A set of objects for each node.
pub struct PointsTo {
    numbering: Numbering,
    rows: SharedRows,
}

impl Drop for PointsTo {
    fn drop(self) {
        let PointsTo {
            numbering: _,
            rows: _,
        } = self;
    }
}

impl Model for PointsTo {
    ghost use Rattle.need_sets.specs.Sets.{Sets, AreInOrder};

    ghost Value = { Sets };

    ghost view = { λ p. record { numbers = p.numbering; rows = p.rows } };

    ghost invariant = { λ p. AreInOrder p.rows };
}

impl PointsTo {
    /// The sets in which each node has the objects of the list at its number, in rising order.
    pub fn new(numbering: Numbering, rows: SharedRows) -> PointsTo
        requires { AreInOrder rows }
        ensures { result ≡ record { numbers = numbering; rows = rows } }
    {
        PointsTo { numbering, rows }
    }

    /// The objects of a node, in rising order. A node that is not of the firmware has none.
    pub fn of(&self, n: &Node) -> &[ObjId]
        ensures { ListsExactly compare_objects (λ o. sets_of self.now (node_by n.now) (object_by o) ≡ true) result.now }
    {
        match self.numbering.node(n) {
            Some(number) => self.row(number as usize),
            None => &[],
        }
    }

    fn row(&self, number: usize) -> &[ObjId]
        ensures rising { IsStrictlySortedBy compare_objects result.now }
        ensures exact { result.now ≡ get_or self.now.rows number [] }
    {
        self.rows.row(number)
    }
}
