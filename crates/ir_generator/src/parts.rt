//! Bindings and instructions of generated functions.

ghost use Rattle.std.specs.Prelude.{◌≡◌, ◌<◌, ◌≤◌, ◌∷◌, [], ◌++◌, map, codes, Some, None, IfOk, OnOk};
ghost use Rattle.std.specs.List.{range_with_len};
ghost use Rattle.base_names.specs.Names.{IsName};
ghost use Rattle.ir_model.specs.declared.firmware.Inst.TheVariants as inst;
ghost use Rattle.ir_model.specs.Plain.{binding_of};
ghost use Rattle.ir_generator.specs.Functions as spec;

use crate::naming::test_name;
use base_lists::ListVec;
use base_names::Name;
use ir_model::firmware::{BinOp, Binding, Inst};
use ir_model::types::Ty;
use std::alloc::{AllocError, Global};
use std::marker::Model;

/// The instructions of a block as they are written.
#[derive(Drop)]
pub(crate) struct Code {
    insts: Vec<Inst>,
}

impl Model for Code {
    ghost use Rattle.std.specs.Prelude.{List};
    ghost use Rattle.ir_model.specs.declared.firmware.Inst.{Inst};

    ghost Value = { List Inst };

    ghost view = { λ c. c.insts.items };
}

/// A list of one binding of a word.
pub(crate) fn one_word(alloc: Global, name: &[u8]) -> Result<Vec<Binding>, AllocError>
    requires { IsName name.now }
    ensures { IfOk result (λ bindings. map binding_of bindings.items ≡ spec.word name.now ∷ []) }
{
    let mut bindings = Vec::new(alloc);
    put_word(alloc, &mut bindings, name)?;
    Ok(bindings)
}

/// A list of one binding of a pointer to words.
pub(crate) fn one_pointer(alloc: Global, name: &[u8]) -> Result<Vec<Binding>, AllocError>
    requires { IsName name.now }
    ensures { IfOk result (λ bindings. map binding_of bindings.items ≡ spec.pointer name.now ∷ []) }
{
    let mut bindings = Vec::new(alloc);
    put_pointer(alloc, &mut bindings, name)?;
    Ok(bindings)
}

/// Puts a binding of a word last.
pub(crate) fn put_word(
    alloc: Global,
    bindings: &mut Vec<Binding>,
    name: &[u8],
) -> Result<(), AllocError>
    requires { IsName name.now }
    ensures { OnOk result (map binding_of bindings.new.items ≡ map binding_of bindings.old.items ++ spec.word name.now ∷ []) }
{
    let name = Name::of(alloc, name)?;
    bindings.push(Binding { name, ty: Ty::U32 })?;
    Ok(())
}

/// Puts a binding of a pointer to words last.
pub(crate) fn put_pointer(
    alloc: Global,
    bindings: &mut Vec<Binding>,
    name: &[u8],
) -> Result<(), AllocError>
    requires { IsName name.now }
    ensures { OnOk result (map binding_of bindings.new.items ≡ map binding_of bindings.old.items ++ spec.pointer name.now ∷ []) }
{
    let binding = pointer(alloc, name)?;
    bindings.push(binding)?;
    Ok(())
}

fn pointer(alloc: Global, name: &[u8]) -> Result<Binding, AllocError>
    requires { IsName name.now }
    ensures { IfOk result (λ binding. binding_of binding ≡ spec.pointer name.now) }
{
    let target = Box::new(alloc, Ty::U32)?;
    let name = Name::of(alloc, name)?;
    Ok(Binding {
        name,
        ty: Ty::Ptr(target),
    })
}

impl Code {
    /// No instruction.
    pub(crate) fn new(alloc: Global) -> Code
        ensures { result ≡ [] }
    {
        Code {
            insts: Vec::new(alloc),
        }
    }

    /// The instructions.
    pub(crate) fn into_insts(self) -> Vec<Inst>
        ensures { result.items ≡ self }
    {
        let Code { insts } = self;
        insts
    }

    fn put(&mut self, inst: Inst) -> Result<(), AllocError>
        ensures { OnOk result (self.new ≡ self.old ++ inst ∷ []) }
    {
        self.insts.push(inst)?;
        Ok(())
    }

    /// Puts `to = addr of` last.
    pub(crate) fn addr(&mut self, alloc: Global, to: &[u8], of: Name) -> Result<(), AllocError>
        requires { IsName to.now }
        ensures { OnOk result (self.new ≡ self.old ++ inst.Addr to.now of ∷ []) }
    {
        let to = Name::of(alloc, to)?;
        self.put(Inst::Addr { to, of })
    }

    /// Puts `to = load from` last.
    pub(crate) fn load(&mut self, alloc: Global, to: &[u8], from: &[u8]) -> Result<(), AllocError>
        requires to { IsName to.now }
        requires from { IsName from.now }
        ensures { OnOk result (self.new ≡ self.old ++ inst.Load to.now from.now ∷ []) }
    {
        let to = Name::of(alloc, to)?;
        let from = Name::of(alloc, from)?;
        self.put(Inst::Load { to, from })
    }

    /// Puts `store to, from` last.
    pub(crate) fn store(&mut self, alloc: Global, to: &[u8], from: &[u8]) -> Result<(), AllocError>
        requires to { IsName to.now }
        requires from { IsName from.now }
        ensures { OnOk result (self.new ≡ self.old ++ inst.Store to.now from.now ∷ []) }
    {
        let to = Name::of(alloc, to)?;
        let from = Name::of(alloc, from)?;
        self.put(Inst::Store { to, from })
    }

    /// Puts `to = op to, b` last.
    pub(crate) fn change(
        &mut self,
        alloc: Global,
        op: BinOp,
        to: &[u8],
        b: &[u8],
    ) -> Result<(), AllocError>
        requires to { IsName to.now }
        requires b { IsName b.now }
        ensures { OnOk result (self.new ≡ self.old ++ inst.Bin op to.now to.now b.now ∷ []) }
    {
        let a = Name::of(alloc, to)?;
        let to = Name::of(alloc, to)?;
        let b = Name::of(alloc, b)?;
        self.put(Inst::Bin { op, to, a, b })
    }

    /// Puts `to = call func(v)` last.
    #[tactic(auto, using(crate::proofs::Proper::fixed_rules))]
    pub(crate) fn call(&mut self, alloc: Global, to: &[u8], func: Name) -> Result<(), AllocError>
        requires { IsName to.now }
        ensures { OnOk result (self.new ≡ self.old ++ inst.Call (Some to.now) func (codes "v" ∷ []) ∷ []) }
    {
        let args = one_name(alloc, b"v")?;
        let to = Name::of(alloc, to)?;
        self.put(Inst::Call {
            to: Some(to),
            func,
            args,
        })
    }

    /// Puts `call s0(p)` last.
    #[tactic(auto, using(crate::proofs::Proper::fixed_rules))]
    pub(crate) fn call_support(&mut self, alloc: Global) -> Result<(), AllocError>
        ensures { OnOk result (self.new ≡ self.old ++ inst.Call None (codes "s0") (codes "p" ∷ []) ∷ []) }
    {
        let args = one_name(alloc, b"p")?;
        let func = Name::of(alloc, b"s0")?;
        self.put(Inst::Call {
            to: None,
            func,
            args,
        })
    }

    /// Puts the call of each of the first so many functions last.
    #[tactic(auto, using(crate::proofs::Proper::fixed_rules, crate::proofs::Growing::growing_rules))]
    pub(crate) fn call_tests(&mut self, alloc: Global, count: u32) -> Result<(), AllocError>
        requires { count ≤ 200 }
        ensures { OnOk result (self.new ≡ self.old ++ map spec.call_test (range_with_len 0 count)) }
    {
        for number in 0..count {
            let func = test_name(alloc, number)?;
            self.call(alloc, b"v", func)?;
        }
        Ok(())
    }
}

/// A list of one name.
fn one_name(alloc: Global, name: &[u8]) -> Result<ListVec<Name>, AllocError>
    requires { IsName name.now }
    ensures { IfOk result (λ names. names ≡ name.now ∷ []) }
{
    let mut names = Vec::new(alloc);
    names.push(Name::of(alloc, name)?)?;
    Ok(ListVec::new(names))
}
