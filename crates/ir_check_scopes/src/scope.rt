//! What the checks of functions look names up in.

ghost use Rattle.std.specs.Prelude.{◌≡◌, map};
ghost use Rattle.std.specs.Coded.{codes, Coded-set};
ghost use Rattle.ir_model.specs.declared.firmware.Peripheral.{Peripheral};
ghost use Rattle.ir_model.specs.declared.types.Ty.TheVariants.{U32};
ghost use Rattle.ir_model.specs.contracts.types.Ty as types;
ghost use Rattle.ir_model.specs.Plain.{PlainStruct, PlainGlobal, PlainFunc, firmware_of, func_of, funcs_of, names_of, regs_of};
ghost use Rattle.ir_model.specs.Resolve.{labels_of};
ghost use Rattle.ir_check_scopes.specs.Scopes.{lent, declared_funcs};

use ir_layouts::table::Layouts;
use ir_model::firmware::{Firmware, Func};
use ir_model::types::Ty;
use ir_names::Names;

/// A firmware with its names, and the layouts of its structs. Each table has what the firmware has, in its order.
pub struct Scope<'a> {
    /// The firmware.
    pub firmware: &'a Firmware,
    /// Its structs' names.
    pub structs: Names<'a>,
    /// Their layouts.
    pub layouts: Layouts<'a>,
    /// Its peripherals' names.
    pub periphs: Names<'a>,
    /// Its globals' names.
    pub globals: Names<'a>,
    /// Its functions' names, over all files.
    pub funcs: Names<'a>,
    /// These functions.
    pub bodies: Vec<&'a Func>,
    pub ghost all_structs: { structs ≡ map (λ (d : PlainStruct). d.name) (firmware_of firmware.now).structs },
    pub ghost all_layouts: { layouts ≡ firmware.now.structs } by { Coded-set (Prim.hlevel (codes, types.the_row.coded)) _ _ },
    pub ghost all_periphs: { periphs ≡ map (λ (q : Peripheral). q.name) (firmware_of firmware.now).periphs },
    pub ghost all_globals: { globals ≡ map (λ (g : PlainGlobal). g.name) (firmware_of firmware.now).globals },
    pub ghost all_funcs: { funcs ≡ map (λ (f : PlainFunc). f.name) (funcs_of (firmware_of firmware.now)) },
    pub ghost all_bodies: { lent bodies.items ≡ declared_funcs firmware.now } by { Coded-set (Prim.hlevel (codes, types.the_row.coded)) _ _ },
}

impl Drop for Scope<'_> {
    fn drop(self) {
        let Scope {
            firmware: _,
            structs: _,
            layouts: _,
            periphs: _,
            globals: _,
            funcs: _,
            bodies: _,
        } = self;
    }
}

/// A function with its names. Each table has what the function has, in its order.
pub struct FuncScope<'a> {
    /// The function.
    pub func: &'a Func,
    /// The names of its registers, the parameters first.
    pub registers: Names<'a>,
    /// Its locals' names.
    pub locals: Names<'a>,
    /// Its labels.
    pub labels: Names<'a>,
    /// The type of a number.
    pub number: Ty,
    pub ghost all_registers: { registers ≡ names_of (regs_of (func_of func.now)) },
    pub ghost all_locals: { locals ≡ names_of (func_of func.now).locals },
    pub ghost all_labels: { labels ≡ labels_of (func_of func.now) },
    pub ghost number_is_word: { number ≡ U32 } by { Coded-set types.the_row.coded _ _ },
}

impl Drop for FuncScope<'_> {
    fn drop(self) {
        let FuncScope {
            func: _,
            registers: _,
            locals: _,
            labels: _,
            number: _,
        } = self;
    }
}
