//! What sets of objects have to obey, over the numbers of nodes and objects.

use ir_model::types::Ty;

/// A node and an object that it has, by their numbers.
#[derive(Clone, Copy)]
pub struct Pair {
    /// The node.
    pub node: u32,
    /// The object.
    pub object: u32,
}

/// Two nodes, by their numbers: what the first has, the second has.
#[derive(Clone, Copy)]
pub struct Edge {
    /// The node whose objects are passed on.
    pub from: u32,
    /// The node that gets them.
    pub to: u32,
}

/// What is asked for each object that a pointer has.
#[derive(Clone, Copy)]
pub enum Trigger<'a> {
    /// The content of the object is passed on to a node.
    Load {
        /// The node.
        to: u32,
    },
    /// A node is passed on to the content of the object.
    Store {
        /// The node.
        from: u32,
    },
    /// A node is passed on to a parameter of the function that the object is, where it is of the type.
    Argument {
        /// The type of functions that are called.
        ty: &'a Ty,
        /// The argument's node.
        from: u32,
        /// The parameter's place.
        place: u32,
    },
    /// The function that the object is passes what it gives on to a node, where it is of the type.
    Outcome {
        /// The type of functions that are called.
        ty: &'a Ty,
        /// The node.
        to: u32,
    },
}

/// What is asked of sets of objects.
pub struct Rules<'a> {
    /// Pairs that are there.
    pub facts: Vec<Pair>,
    /// Nodes that are passed on.
    pub copies: Vec<Edge>,
    /// What is asked for each object of a node.
    pub triggers: Vec<Vec<Trigger<'a>>>,
}

impl Drop for Rules<'_> {
    fn drop(self) {
        let Rules {
            facts: _,
            copies: _,
            triggers: _,
        } = self;
    }
}
