//! The numbers of nodes and objects.

ghost use Rattle.std.specs.Prelude.{◌≡◌, ◌+◌, ◌<◌, length, IfOk, OnOk};
ghost use Rattle.std.specs.List.{sum};
ghost use Rattle.need_numbers.specs.Groups.{place_of, start_of};
ghost use Rattle.ir_model.specs.Objects.{object_by};
ghost use Rattle.need_sets.specs.Nodes.{node_by};
ghost use Rattle.need_sets.specs.Numbers.{object_number, node_number, AreByNumber};

use crate::node::Node;
use ir_model::object::ObjId;
use need_numbers::Groups;
use std::alloc::{AllocError, Global};
use std::marker::Model;

/// How nodes and objects are numbered, seen as the counts of their groups: objects in their order, and nodes with the registers of all
/// functions first, then the contents of the objects, then the results of the functions.
pub struct Numbering {
    /// How many functions there are.
    pub(crate) funcs: u32,
    /// The objects in groups: globals, peripherals, the locals of each function, functions.
    pub(crate) objects: Groups,
    /// The nodes in groups: the registers of each function, contents, results.
    pub(crate) nodes: Groups,
}

impl Drop for Numbering {
    fn drop(self) {
        let Numbering {
            funcs: _,
            objects: _,
            nodes: _,
        } = self;
    }
}

impl Model for Numbering {
    ghost use Rattle.std.specs.Prelude.{◌≡◌, ◌+◌, length};
    ghost use Rattle.need_sets.specs.Numbers.{GroupCounts};

    ghost Value = { GroupCounts };

    ghost view = { λ n. record { funcs = n.funcs; objects = n.objects; nodes = n.nodes } };

    ghost invariant = { λ n. length n.objects ≡ 3 + n.funcs };
}

impl Numbering {
    fn item(&self, group: usize, item: u32) -> ObjId
        requires { group < 3 + self.now.funcs }
        ensures { object_number self.now (object_by result) ≡ place_of self.now.objects group item }
    {
        match group {
            0 => ObjId::Global(item),
            1 => ObjId::Periph(item),
            _ => {
                let func = group - 2;
                if func < self.funcs as usize {
                    ObjId::Local {
                        func: func as u32,
                        local: item,
                    }
                } else {
                    ObjId::Func(item)
                }
            }
        }
    }

    fn put_items(&self, by_number: &mut Vec<ObjId>, group: usize) -> Result<(), AllocError>
        requires group { group < 3 + self.now.funcs }
        requires count { length by_number.old.items ≡ start_of self.now.objects group }
        requires by_number { AreByNumber self.now by_number.old.items }
        ensures count { OnOk result (length by_number.new.items ≡ start_of self.now.objects (group + 1)) }
        ensures by_number { OnOk result (AreByNumber self.now by_number.new.items) }
    {
        for item in 0..self.objects.count(group) {
            by_number.push(self.item(group, item))?;
        }
        Ok(())
    }

    /// All objects, each at the place of its number.
    ///
    /// # Errors
    ///
    /// There is no memory for them.
    pub fn all_objects(&self, alloc: Global) -> Result<Vec<ObjId>, AllocError>
        ensures count { IfOk result (λ by_number. length by_number.items ≡ sum self.now.objects) }
        ensures by_number { IfOk result (λ by_number. AreByNumber self.now by_number.items) }
    {
        let mut by_number = Vec::new(alloc);
        for group in 0..self.objects.len() {
            self.put_items(&mut by_number, group)?;
        }
        Ok(by_number)
    }

    /// How many objects there are.
    pub fn object_count(&self) -> u32
        ensures { result ≡ sum self.now.objects }
    {
        self.objects.total()
    }

    /// How many nodes there are.
    pub fn node_count(&self) -> u32
        ensures { result ≡ sum self.now.nodes }
    {
        self.nodes.total()
    }

    /// The number of the first function among the objects.
    pub fn first_func(&self) -> u32
        ensures { result ≡ start_of self.now.objects (2 + self.now.funcs) }
    {
        self.objects.start(2 + self.funcs as usize)
    }

    /// The number of an object; `None` if it is absent.
    pub fn object(&self, object: &ObjId) -> Option<u32>
        ensures { result ≡ object_number self.now (object_by object.now) }
    {
        match *object {
            ObjId::Global(global) => self.objects.place(0, global),
            ObjId::Periph(periph) => self.objects.place(1, periph),
            ObjId::Local { func, local } => {
                if func < self.funcs {
                    self.objects.place(2 + func as usize, local)
                } else {
                    None
                }
            }
            ObjId::Func(func) => self.objects.place(2 + self.funcs as usize, func),
        }
    }

    /// The number of the node that is the content of an object, by the object's number; `None` if the object is absent.
    pub fn content(&self, object: u32) -> Option<u32>
        ensures { result ≡ place_of self.now.nodes self.now.funcs object }
    {
        self.nodes.place(self.funcs as usize, object)
    }

    /// The number of a node; `None` if it is absent.
    pub fn node(&self, node: &Node) -> Option<u32>
        ensures { result ≡ node_number self.now (node_by node.now) }
    {
        match node {
            Node::Reg { func, reg } => {
                if *func < self.funcs {
                    self.nodes.place(*func as usize, *reg)
                } else {
                    None
                }
            }
            Node::Content(object) => {
                let number = self.object(object)?;
                self.nodes.place(self.funcs as usize, number)
            }
            Node::Result(func) => self.nodes.place(1 + self.funcs as usize, *func),
        }
    }
}
