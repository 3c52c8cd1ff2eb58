//! An assembler: pieces of code put one behind the other, with labels.

ghost use Rattle.std.specs.Prelude.{◌≡◌, ◌+◌, ◌<◌, ◌^◌, ◌∷◌, ◌++◌, [], length, Some, None, OnOk, OnErr, IfOk};
ghost use Rattle.std.proofs.Math.ListN.{get_or, set};
ghost use Rattle.machine_thumb.specs.Table.{InTable, encode, width_of};
ghost use Rattle.machine_thumb_asm.specs.declared.item.Item.TheVariants as items;
ghost use Rattle.machine_thumb_asm.specs.Assembly as assembly;
ghost use Rattle.machine_thumb_asm.specs.Finished.{Reaches, assembled};

use crate::encoding::{branch_size, instruction_size, put_items};
use crate::item::{BranchKind, Item, Label};
use crate::refusal::AsmRefusal;
use machine_thumb::Instr;
use std::alloc::{AllocError, Global};
use std::marker::Model;

/// Code in the making: instructions, branches to labels, and data, from a base address on.
#[derive(Drop)]
pub struct Asm {
    alloc: Global,
    base: u32,
    next: u32,
    items: Vec<Item>,
    places: Vec<Option<u32>>,
}

impl Model for Asm {
    ghost use Rattle.std.specs.Prelude.{◌≡◌};
    ghost use Rattle.machine_thumb_asm.specs.Assembly.{Assembly, IsAssembly, here};

    ghost Value = { Assembly };

    ghost view = { λ a. record { base = a.base; items = a.items.items; places = a.places.items } };

    ghost invariant = { λ a. (a.next ≡ here (record { base = a.base; items = a.items.items; places = a.places.items })) × IsAssembly (record { base = a.base; items = a.items.items; places = a.places.items }) };
}

impl Asm {
    /// No code yet, at this address.
    pub fn new(alloc: Global, base: u32) -> Asm
        requires { base < 2 ^ 31 }
        ensures { result ≡ record { base = base; items = []; places = [] } }
    {
        Asm {
            alloc,
            base,
            next: base,
            items: Vec::new(alloc),
            places: Vec::new(alloc),
        }
    }

    /// The address of the next byte.
    pub fn here(&self) -> u32
        ensures { result ≡ assembly.here self.now }
    {
        self.next
    }

    /// A new label. After an error there is none.
    pub fn label(&mut self) -> Result<Label, AllocError>
        ensures ok { IfOk result (λ label. (label.number ≡ length self.old.places) × (self.new ≡ record self.old { places = self.old.places ++ None ∷ [] })) }
        ensures err { OnErr result (self.new ≡ self.old) }
    {
        let number = self.places.len();
        self.places.push(None)?;
        Ok(Label { number })
    }

    /// Puts a label here. A label is put once.
    pub fn put_label(&mut self, l: Label)
        requires there { l.number < length self.old.places }
        requires once { get_or self.old.places l.number None ≡ None }
        ensures { self.new ≡ record self.old { places = set self.old.places l.number (Some (assembly.here self.old)) } }
    {
        self.places[l.number] = Some(self.next);
    }

    /// Puts an instruction. After an error the code is as before.
    pub fn emit(&mut self, i: &Instr) -> Result<(), AllocError>
        requires in_table { InTable i.now }
        requires room { assembly.here self.old + width_of (encode i.now) < 2 ^ 31 }
        ensures ok { OnOk result (self.new ≡ record self.old { items = self.old.items ++ items.Plain i.now ∷ [] }) }
        ensures err { OnErr result (self.new ≡ self.old) }
    {
        let size = instruction_size(i);
        self.put(Item::Plain(*i), size)
    }

    /// Puts a branch to a label. After an error the code is as before.
    pub fn branch(&mut self, kind: BranchKind, to: Label) -> Result<(), AllocError>
        requires condition { assembly.HasCondition kind }
        requires label { to.number < length self.old.places }
        requires room { assembly.here self.old + assembly.branch_size kind < 2 ^ 31 }
        ensures ok { OnOk result (self.new ≡ record self.old { items = self.old.items ++ items.Branch kind to ∷ [] }) }
        ensures err { OnErr result (self.new ≡ self.old) }
    {
        self.put(Item::Branch { kind, to }, branch_size(kind))
    }

    /// Puts a halfword of data, its lowest byte first. After an error the code is as before.
    pub fn half(&mut self, h: u16) -> Result<(), AllocError>
        requires { assembly.here self.old + 2 < 2 ^ 31 }
        ensures ok { OnOk result (self.new ≡ record self.old { items = self.old.items ++ items.Half h ∷ [] }) }
        ensures err { OnErr result (self.new ≡ self.old) }
    {
        self.put(Item::Half(h), 2)
    }

    /// Puts a word of data, its lowest byte first. After an error the code is as before.
    pub fn word(&mut self, w: u32) -> Result<(), AllocError>
        requires { assembly.here self.old + 4 < 2 ^ 31 }
        ensures ok { OnOk result (self.new ≡ record self.old { items = self.old.items ++ items.Word w ∷ [] }) }
        ensures err { OnErr result (self.new ≡ self.old) }
    {
        self.put(Item::Word(w), 4)
    }

    fn put(&mut self, item: Item, size: u32) -> Result<(), AllocError>
        requires item { assembly.IsItem (length self.old.places) item }
        requires size { size ≡ assembly.size_of item }
        requires room { assembly.here self.old + size < 2 ^ 31 }
        ensures ok { OnOk result (self.new ≡ record self.old { items = self.old.items ++ item ∷ [] }) }
        ensures err { OnErr result (self.new ≡ self.old) }
    {
        self.items.push(item)?;
        self.next += size;
        Ok(())
    }

    /// The bytes of the code.
    ///
    /// # Errors
    ///
    /// The first branch that does not reach its label.
    pub fn finish(self) -> Result<Vec<u8>, AsmRefusal>
        requires { assembly.ArePut self.places self.items }
        ensures far { Reaches self result }
        ensures bytes { IfOk result (λ bytes. bytes.items ≡ assembled self) }
    {
        put_items(
            self.alloc,
            self.items.as_slice(),
            self.base,
            self.places.as_slice(),
        )
    }
}
