//! What names mean: the first that has each.

ghost use Rattle.std.specs.Prelude.{◌≡◌, map, option_map};
ghost use Rattle.std.specs.Borrow.{Bor};
ghost use Rattle.std.specs.Str.{bytes_eq};
ghost use Rattle.std.specs.Coded.{Coded-set};
ghost use Rattle.base_names.specs.Numbers.{has};
ghost use Rattle.ir_model.specs.declared.firmware.Block.{Block as PlainBlock};
ghost use Rattle.ir_model.specs.declared.firmware.Peripheral.{Peripheral as PlainPeripheral};
ghost use Rattle.ir_model.specs.declared.firmware.Func.{Func as FuncValue};
ghost use Rattle.ir_model.specs.declared.firmware.Global.{Global as GlobalValue};
ghost use Rattle.ir_model.specs.declared.firmware.StructDecl.{StructDecl as StructValue};
ghost use Rattle.ir_model.specs.declared.types.Ty.{Ty as TyValue, U32};
ghost use Rattle.ir_model.specs.contracts.types.Ty as types;
ghost use Rattle.ir_model.specs.Types.{type_of};
ghost use Rattle.ir_model.specs.Plain.{binding_of, struct_of, global_of, func_of, file_of};
ghost use Rattle.ir_model.specs.Resolve.{type_named};
ghost use Rattle.ir_model.specs.Rules.{binding_type, global_type, is_number};
ghost use Rattle.ir_check_details.specs.Found as found;
ghost use Rattle.ir_check_details.specs.FirstValues as first_values;

use base_names::Name;
use ir_model::firmware::{
    Binding, Block, FileDecl, Firmware, Func, Global as GlobalDecl, Peripheral, StructDecl,
};
use ir_model::types::Ty;
use ir_types::equal::same_type;

/// A firmware, one of its functions, and the type of numbers.
#[derive(Drop)]
pub(crate) struct Site<'a> {
    /// The firmware.
    pub(crate) firmware: &'a Firmware,
    /// The function.
    pub(crate) func: &'a Func,
    /// The type of numbers.
    pub(crate) number: &'a Ty,
    /// It is `u32`.
    pub(crate) ghost number_is_word: { number.now ≡ U32 } by { Coded-set types.the_row.coded _ _ },
}

/// Whether a name is a word.
fn is_word(name: &Name, word: &[u8]) -> bool
    ensures { result ≡ bytes_eq name.now word.now }
{
    name.as_slice() == word
}

/// The type of a binding.
pub(crate) fn binding_named<'s>(bindings: &'s [Binding], word: &[u8]) -> Option<&'s Ty>
    ensures { option_map (λ (t : Bor TyValue). type_of t.now) result ≡ binding_type (map binding_of bindings.now) word.now }
{
    match bindings {
        [] => None,
        [binding, more @ ..] => {
            if is_word(&binding.name, word) {
                Some(&binding.ty)
            } else {
                binding_named(more, word)
            }
        }
    }
}

/// The type of a global.
pub(crate) fn global_named<'s>(globals: &'s [GlobalDecl], word: &[u8]) -> Option<&'s Ty>
    ensures { option_map (λ (t : Bor TyValue). type_of t.now) result ≡ global_type (map global_of globals.now) word.now }
{
    match globals {
        [] => None,
        [global, more @ ..] => {
            if is_word(&global.name, word) {
                Some(&global.ty)
            } else {
                global_named(more, word)
            }
        }
    }
}

/// A global.
pub(crate) fn global_declared<'s>(globals: &'s [GlobalDecl], word: &[u8]) -> Option<&'s GlobalDecl>
    ensures { option_map (λ (g : Bor GlobalValue). global_of g.now) result ≡ first_values.global_named (map global_of globals.now) word.now }
{
    match globals {
        [] => None,
        [global, more @ ..] => {
            if is_word(&global.name, word) {
                Some(global)
            } else {
                global_declared(more, word)
            }
        }
    }
}

/// Whether a peripheral has a name.
pub(crate) fn has_periph(periphs: &[Peripheral], word: &[u8]) -> bool
    ensures { result ≡ has (map (λ (q : PlainPeripheral). q.name) periphs.now) word.now }
{
    match periphs {
        [] => false,
        [periph, more @ ..] => is_word(&periph.name, word) || has_periph(more, word),
    }
}

/// A peripheral.
pub(crate) fn periph_named<'s>(periphs: &'s [Peripheral], word: &[u8]) -> Option<&'s Peripheral>
    ensures { option_map (λ (q : Bor PlainPeripheral). q.now) result ≡ found.periph_named periphs.now word.now }
{
    match periphs {
        [] => None,
        [periph, more @ ..] => {
            if is_word(&periph.name, word) {
                Some(periph)
            } else {
                periph_named(more, word)
            }
        }
    }
}

/// A block.
pub(crate) fn block_named<'s>(blocks: &'s [Block], word: &[u8]) -> Option<&'s Block>
    ensures { option_map (λ (b : Bor PlainBlock). b.now) result ≡ found.block_named blocks.now word.now }
{
    match blocks {
        [] => None,
        [block, more @ ..] => {
            if is_word(&block.label, word) {
                Some(block)
            } else {
                block_named(more, word)
            }
        }
    }
}

/// A struct.
pub(crate) fn struct_named<'s>(structs: &'s [StructDecl], word: &[u8]) -> Option<&'s StructDecl>
    ensures { option_map (λ (d : Bor StructValue). struct_of d.now) result ≡ found.struct_named (map struct_of structs.now) word.now }
{
    match structs {
        [] => None,
        [decl, more @ ..] => {
            if is_word(&decl.name, word) {
                Some(decl)
            } else {
                struct_named(more, word)
            }
        }
    }
}

/// A function of a file.
fn func_of_file<'s>(funcs: &'s [Func], word: &[u8]) -> Option<&'s Func>
    ensures { option_map (λ (f : Bor FuncValue). func_of f.now) result ≡ found.func_named (map func_of funcs.now) word.now }
{
    match funcs {
        [] => None,
        [func, more @ ..] => {
            if is_word(&func.name, word) {
                Some(func)
            } else {
                func_of_file(more, word)
            }
        }
    }
}

/// A function, over the files in order.
pub(crate) fn func_named<'s>(files: &'s [FileDecl], word: &[u8]) -> Option<&'s Func>
    ensures { option_map (λ (f : Bor FuncValue). func_of f.now) result ≡ found.func_in (map file_of files.now) word.now }
{
    match files {
        [] => None,
        [file, more @ ..] => match func_of_file(file.funcs.as_slice(), word) {
            Some(func) => Some(func),
            None => func_named(more, word),
        },
    }
}

/// The type of a register; `u32` for a name that no register has.
pub(crate) fn register_type<'a>(site: &Site<'a>, name: &Name) -> &'a Ty
    ensures { type_of result.now ≡ type_named (func_of site.now.func.now) name.now }
{
    match binding_named(site.func.params.as_slice(), name.as_slice()) {
        Some(ty) => ty,
        None => match binding_named(site.func.regs.as_slice(), name.as_slice()) {
            Some(ty) => ty,
            None => site.number,
        },
    }
}

/// Whether a register holds a number.
pub(crate) fn is_number(site: &Site<'_>, name: &Name) -> bool
    ensures { result ≡ is_number (func_of site.now.func.now) name.now }
{
    same_type(register_type(site, name), site.number)
}
