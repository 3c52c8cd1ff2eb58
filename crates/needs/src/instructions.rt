//! The uses by which the instructions of a function reach objects and functions.

ghost use Rattle.std.specs.Prelude.{◌≡◌, ◌++◌, ◌↔◌, List, map, IfOk, OnOk, Contains, flat_map};
ghost use Rattle.std.specs.Option.{option_to_list};
ghost use Rattle.ir_model.specs.Layout.{Known};
ghost use Rattle.ir_program.specs.Parts.{operation_of, sequence_of};
ghost use Rattle.needs.specs.Uses.{used, uses_in};

use ir_program::program::{Operation, Sequence};
use need_lists::each_once;
use std::alloc::{AllocError, Global};

/// A use by which an instruction reaches objects or functions.
#[derive(Clone, Copy, PartialEq, Eq, PartialOrd, Ord)]
pub enum Use {
    /// A load by this register.
    Load(usize),
    /// A store by this register.
    Store(usize),
    /// A call of this function.
    Call(u16),
    /// A call by this register.
    Indirect(usize),
}

/// Whether objects are read or written.
#[derive(Clone, Copy)]
pub enum Access {
    /// They are read.
    Read,
    /// They are written.
    Write,
}

fn use_of(operation: &Operation) -> Option<Use>
    ensures { (ks : List Known) → option_to_list result ≡ used (operation_of ks operation.now) }
{
    match operation {
        Operation::Load { from, .. } => Some(Use::Load(*from)),
        Operation::Store { to, .. } => Some(Use::Store(*to)),
        Operation::Call { func, .. } => Some(Use::Call(*func)),
        Operation::ICall { func, .. } => Some(Use::Indirect(*func)),
        Operation::Const { .. } => None,
        Operation::Move { .. } => None,
        Operation::Bin { .. } => None,
        Operation::Cmp { .. } => None,
        Operation::Addr { .. } => None,
        Operation::FAddr { .. } => None,
        Operation::Elem { .. } => None,
        Operation::Field { .. } => None,
    }
}

fn push_use(operation: &Operation, uses: &mut Vec<Use>) -> Result<(), AllocError>
    ensures { OnOk result ((ks : List Known) → uses.new.items ≡ uses.old.items ++ used (operation_of ks operation.now)) }
{
    if let Some(next) = use_of(operation) {
        uses.push(next)?;
    }
    Ok(())
}

fn push_uses(operations: &[Operation], uses: &mut Vec<Use>) -> Result<(), AllocError>
    ensures { OnOk result ((ks : List Known) → uses.new.items ≡ uses.old.items ++ flat_map used (map (operation_of ks) operations.now)) }
{
    for i in 0..operations.len() {
        push_use(&operations[i], uses)?;
    }
    Ok(())
}

/// The uses by which the instructions of blocks reach objects and functions, each once.
///
/// # Errors
///
/// There is no memory for them.
pub fn uses(alloc: Global, blocks: &[Sequence]) -> Result<Vec<Use>, AllocError>
    ensures { IfOk result (λ us. (ks : List Known) (u : Use) → Contains us.items u ↔ Contains (uses_in (map (sequence_of ks) blocks.now)) u) }
{
    let mut uses = Vec::new(alloc);
    for i in 0..blocks.len() {
        push_uses(blocks[i].operations.as_slice(), &mut uses)?;
    }
    each_once(uses)
}
