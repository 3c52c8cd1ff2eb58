//! The code of addresses, and of loads and stores through them.

ghost use Rattle.std.specs.Prelude.{◌≡◌, ◌<◌, [], ◌∷◌, map, OnOk};
ghost use Rattle.machine_thumb.specs.Table.{InTable};
ghost use Rattle.machine_thumb.specs.declared.table.Instr.TheVariants.{AddSubRegister};
ghost use Rattle.ir_model.specs.Plain.{struct_of};
ghost use Rattle.ir_model.specs.Layout.{known, shape};
ghost use Rattle.ir_program.specs.Storages.{pointee_of};
ghost use Rattle.code_model.specs.Words as word;
ghost use Rattle.code_model.specs.Words.{plain};
ghost use Rattle.code_model.specs.Addresses as address;
ghost use Rattle.code_model.specs.Addresses.{elem_code, field_code, load_code, store_code};
ghost use Rattle.code_model.specs.Emitted.{with_more, HasRoom};

use crate::instructions::{home_address, load_home, put, save, word_into};
use ir_layouts::table::Layouts;
use ir_model::types::Ty;
use machine_thumb::Instr;
use machine_thumb_asm::Asm;
use std::alloc::AllocError;

/// The address of a word of the frame into a register of the function.
pub(crate) fn put_local_address(asm: &mut Asm, to: usize, home: usize) -> Result<(), AllocError>
    requires to_near { to < 256 }
    requires home_near { home < 256 }
    requires room { HasRoom asm.old (plain (word.home_address 0 home ∷ word.save to ∷ [])) }
    ensures { OnOk result (asm.new ≡ with_more asm.old (plain (word.home_address 0 home ∷ word.save to ∷ []))) }
{
    put(asm, &[home_address(0, home), save(to)])
}

/// The size of an element, as it is multiplied: no object is larger than 65,536 bytes, so a larger element is never pointed to.
fn scale(layouts: &Layouts, element: Option<&Ty>) -> u32
    ensures { result ≡ address.scale_of (shape (known (map struct_of layouts.now)) (pointee_of element.entry)).size }
{
    match element {
        None => 4,
        Some(ty) => {
            let size = layouts.measure(ty).size;
            if size <= 0x1_0000 { size as u32 } else { 0 }
        }
    }
}

/// ADDS r0, r0, r1
fn sum() -> Instr
    ensures code { result ≡ AddSubRegister 0 1 0 0 }
    ensures in_table { InTable result }
{
    Instr::AddSubRegister {
        op: 0,
        m: 1,
        n: 0,
        d: 0,
    }
}

/// The address of an element into a register of the function.
pub(crate) fn put_elem(
    asm: &mut Asm,
    layouts: &Layouts,
    to: usize,
    base: usize,
    index: usize,
    element: Option<&Ty>,
) -> Result<(), AllocError>
    requires to_near { to < 256 }
    requires base_near { base < 256 }
    requires index_near { index < 256 }
    requires room { HasRoom asm.old (plain (elem_code to base index (shape (known (map struct_of layouts.now)) (pointee_of element)).size)) }
    ensures { OnOk result (asm.new ≡ with_more asm.old (plain (elem_code to base index (shape (known (map struct_of layouts.now)) (pointee_of element.entry)).size))) }
{
    let [low, high] = word_into(2, scale(layouts, element));
    let product = Instr::DataRegister { op: 13, m: 2, d: 1 };
    let code = [
        load_home(0, base),
        load_home(1, index),
        low,
        high,
        product,
        sum(),
        save(to),
    ];
    put(asm, &code)
}

/// The address of a field into a register of the function.
pub(crate) fn put_field(
    asm: &mut Asm,
    to: usize,
    base: usize,
    offset: u32,
) -> Result<(), AllocError>
    requires to_near { to < 256 }
    requires base_near { base < 256 }
    requires room { HasRoom asm.old (plain (field_code to base offset)) }
    ensures { OnOk result (asm.new ≡ with_more asm.old (plain (field_code to base offset))) }
{
    let [low, high] = word_into(1, offset);
    put(asm, &[load_home(0, base), low, high, sum(), save(to)])
}

/// LDRB, LDRH or LDR r0, [r1, #0], by the type that is pointed to.
fn load_at(ty: Option<&Ty>) -> Instr
    ensures code { result ≡ address.load_at (pointee_of ty.entry) }
    ensures in_table { InTable result }
{
    let (imm5, n, t) = (0, 1, 0);
    let op = match ty {
        Some(Ty::U8) => 3,
        Some(Ty::U16) => 5,
        Some(Ty::U32 | Ty::Ptr(_) | Ty::Array(_, _) | Ty::Named(_) | Ty::Callee(_)) | None => 1,
    };
    Instr::TransferImmediate { op, imm5, n, t }
}

/// STRB, STRH or STR r0, [r1, #0], by the type that is pointed to.
fn store_at(ty: Option<&Ty>) -> Instr
    ensures code { result ≡ address.store_at (pointee_of ty.entry) }
    ensures in_table { InTable result }
{
    let (imm5, n, t) = (0, 1, 0);
    let op = match ty {
        Some(Ty::U8) => 2,
        Some(Ty::U16) => 4,
        Some(Ty::U32 | Ty::Ptr(_) | Ty::Array(_, _) | Ty::Named(_) | Ty::Callee(_)) | None => 0,
    };
    Instr::TransferImmediate { op, imm5, n, t }
}

/// What a register of the function points to into another.
pub(crate) fn put_load(
    asm: &mut Asm,
    to: usize,
    from: usize,
    ty: Option<&Ty>,
) -> Result<(), AllocError>
    requires to_near { to < 256 }
    requires from_near { from < 256 }
    requires room { HasRoom asm.old (plain (load_code to from (pointee_of ty))) }
    ensures { OnOk result (asm.new ≡ with_more asm.old (plain (load_code to from (pointee_of ty.entry)))) }
{
    put(asm, &[load_home(1, from), load_at(ty), save(to)])
}

/// A register of the function to where another points.
pub(crate) fn put_store(
    asm: &mut Asm,
    to: usize,
    from: usize,
    ty: Option<&Ty>,
) -> Result<(), AllocError>
    requires to_near { to < 256 }
    requires from_near { from < 256 }
    requires room { HasRoom asm.old (plain (store_code to from (pointee_of ty))) }
    ensures { OnOk result (asm.new ≡ with_more asm.old (plain (store_code to from (pointee_of ty.entry)))) }
{
    put(asm, &[load_home(1, to), load_home(0, from), store_at(ty)])
}
