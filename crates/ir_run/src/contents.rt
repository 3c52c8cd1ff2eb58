//! What registers and cells hold.

ghost use Rattle.std.specs.Prelude.{◌≡◌, []};
ghost use Rattle.std.proofs.Math.ListN.{get_or, set};
ghost use Rattle.ir_program.specs.declared.value.Value.TheVariants.{Number};

use ir_program::value::Value;
use std::marker::Model;

/// Values by number.
#[derive(Drop)]
pub struct Values {
    values: Vec<Value>,
}

impl Model for Values {
    ghost use Rattle.std.specs.Prelude.{List};
    ghost use Rattle.ir_program.specs.declared.value.Value.{Value as Held};

    ghost Value = { List Held };

    ghost view = { λ v. v.values.items };
}

impl Values {
    /// These values.
    pub fn new(values: Vec<Value>) -> Values
        ensures { result ≡ values.items }
    {
        Values { values }
    }

    /// All values.
    pub fn as_slice(&self) -> &[Value]
        ensures { result.now ≡ self.now }
    {
        self.values.as_slice()
    }

    /// The value of a number; 0 where there is none.
    pub fn at(&self, place: usize) -> Value
        ensures { result ≡ get_or self.now place (Number 0) }
    {
        if place < self.values.len() {
            self.values[place]
        } else {
            Value::Number(0)
        }
    }

    /// Puts a value in the place of another.
    pub fn put(&mut self, place: usize, value: Value)
        ensures { self.new ≡ set self.old place value }
    {
        if place < self.values.len() {
            self.values[place] = value;
        }
    }
}

/// The contents of objects, by their numbers.
pub struct Contents {
    objects: Vec<Values>,
}

impl Drop for Contents {
    fn drop(self) {
        let Contents { objects: _ } = self;
    }
}

impl Model for Contents {
    ghost use Rattle.std.specs.Prelude.{List};
    ghost use Rattle.ir_program.specs.declared.value.Value.{Value as Held};

    ghost Value = { List (List Held) };

    ghost view = { λ v. v.objects.items };
}

impl Contents {
    /// These contents.
    pub fn new(objects: Vec<Values>) -> Contents
        ensures { result ≡ objects.items }
    {
        Contents { objects }
    }

    /// A cell of an object; 0 where there is none.
    pub fn at(&self, object: usize, cell: usize) -> Value
        ensures { result ≡ get_or (get_or self.now object []) cell (Number 0) }
    {
        if object < self.objects.len() {
            self.objects[object].at(cell)
        } else {
            Value::Number(0)
        }
    }

    /// Puts a value into a cell of an object.
    pub fn put(&mut self, object: usize, cell: usize, value: Value)
        ensures { self.new ≡ set self.old object (set (get_or self.old object []) cell value) }
    {
        if object < self.objects.len() {
            self.objects[object].put(cell, value);
        }
    }
}
