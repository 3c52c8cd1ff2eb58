//! The firmware of a seed and a size.

ghost use Rattle.std.specs.Prelude.{◌≡◌, ◌<◌, ◌≤◌, ◌+◌, ◌*◌, ◌++◌, ◌∷◌, [], min, map, length, IfOk, OnOk};
ghost use Rattle.std.specs.List.{range_with_len};
ghost use Rattle.base_names.specs.Names.{IsName};
ghost use Rattle.ir_model.specs.Plain.{firmware_of, file_of, func_of, global_of};
ghost use Rattle.ir_generator.specs.Choices.{IsWithin, AreWithin};
ghost use Rattle.ir_generator.specs.Made as spec;

use crate::choices::{Choice, choices};
use crate::functions::{main_func, support, test_func};
use crate::naming::{file_name, global_name, port_name};
use base_lists::ListVec;
use base_names::Name;
use ir_model::firmware::{FileDecl, Firmware, Func, Global as GlobalDecl, Peripheral};
use ir_model::types::Ty;
use std::alloc::{AllocError, Global};

/// How many files hold the functions that are drawn.
const FILE_COUNT: u32 = 16;

fn port(alloc: Global, number: u32) -> Result<Peripheral, AllocError>
    requires { number < 4 }
    ensures { IfOk result (λ port. port ≡ spec.port number) }
{
    let name = port_name(alloc, number)?;
    Ok(Peripheral {
        name,
        base: 0x4000_0000 + 0x1_0000 * number,
        size: 1024,
    })
}

#[tactic(auto, using(crate::proofs::Growing::growing_rules))]
fn ports(alloc: Global) -> Result<Vec<Peripheral>, AllocError>
    ensures { IfOk result (λ ports. ports.items ≡ map spec.port (range_with_len 0 4)) }
{
    let mut ports = Vec::new(alloc);
    for number in 0..4 {
        ports.push(port(alloc, number)?)?;
    }
    Ok(ports)
}

fn global(alloc: Global, number: u32) -> Result<GlobalDecl, AllocError>
    requires { number < 200 }
    ensures { IfOk result (λ global. global_of global ≡ spec.global number) }
{
    let name = global_name(alloc, number)?;
    Ok(GlobalDecl {
        name,
        constant: false,
        ty: Ty::U32,
        init: ListVec::new(Vec::new(alloc)),
    })
}

#[tactic(auto, using(crate::proofs::Growing::growing_rules))]
fn globals(alloc: Global, size: u32) -> Result<Vec<GlobalDecl>, AllocError>
    requires { size ≤ 200 }
    ensures { IfOk result (λ globals. map global_of globals.items ≡ map spec.global (range_with_len 0 size)) }
{
    let mut globals = Vec::new(alloc);
    for number in 0..size {
        globals.push(global(alloc, number)?)?;
    }
    Ok(globals)
}

/// Puts a function last where it stands in this file.
#[tactic(auto, using(crate::proofs::Growing::held_rules))]
fn put_held(
    alloc: Global,
    funcs: &mut Vec<Func>,
    choice: Choice,
    number: u32,
    file: u32,
) -> Result<(), AllocError>
    requires number { number < 200 }
    requires within { IsWithin 200 choice.body }
    ensures { OnOk result (map func_of funcs.new.items ≡ map func_of funcs.old.items ++ spec.held_here number file choice) }
{
    if number % FILE_COUNT == file {
        funcs.push(test_func(alloc, number, choice.body)?)?;
    }
    Ok(())
}

/// The functions of a file.
fn held(alloc: Global, choices: &[Choice], file: u32) -> Result<Vec<Func>, AllocError>
    requires length { length choices.now ≤ 200 }
    requires within { AreWithin 200 choices.now }
    ensures { IfOk result (λ funcs. map func_of funcs.items ≡ spec.held_from 0 file choices.now) }
{
    let mut funcs = Vec::new(alloc);
    for number in 0..choices.len() {
        put_held(alloc, &mut funcs, choices[number], number as u32, file)?;
    }
    Ok(funcs)
}

fn test_file(alloc: Global, choices: &[Choice], number: u32) -> Result<FileDecl, AllocError>
    requires length { length choices.now ≤ 200 }
    requires within { AreWithin 200 choices.now }
    requires number { number < 16 }
    ensures { IfOk result (λ file. file_of file ≡ spec.test_file choices.now number) }
{
    let name = file_name(alloc, number)?;
    let funcs = held(alloc, choices, number)?;
    Ok(FileDecl {
        name,
        funcs: ListVec::new(funcs),
    })
}

/// A file of this name with one function.
fn file_of_one(alloc: Global, name: &[u8], func: Func) -> Result<FileDecl, AllocError>
    requires { IsName name.now }
    ensures { IfOk result (λ file. file_of file ≡ record { name = name.now; funcs = func_of func ∷ [] }) }
{
    let mut funcs = Vec::new(alloc);
    funcs.push(func)?;
    let name = Name::of(alloc, name)?;
    Ok(FileDecl {
        name,
        funcs: ListVec::new(funcs),
    })
}

/// Puts the files of the functions that are drawn last.
#[tactic(auto, using(crate::proofs::Growing::growing_rules))]
fn put_test_files(
    alloc: Global,
    files: &mut Vec<FileDecl>,
    choices: &[Choice],
    count: u32,
) -> Result<(), AllocError>
    requires length { length choices.now ≤ 200 }
    requires within { AreWithin 200 choices.now }
    requires count { count ≤ 16 }
    ensures { OnOk result (map file_of files.new.items ≡ map file_of files.old.items ++ map (spec.test_file choices.now) (range_with_len 0 count)) }
{
    for number in 0..count {
        files.push(test_file(alloc, choices, number)?)?;
    }
    Ok(())
}

#[tactic(auto, using(crate::proofs::Proper::fixed_rules))]
fn files(alloc: Global, choices: &[Choice], size: u32) -> Result<Vec<FileDecl>, AllocError>
    requires length { length choices.now ≤ 200 }
    requires within { AreWithin 200 choices.now }
    requires size { size ≤ 200 }
    ensures { IfOk result (λ files. map file_of files.items ≡ spec.main_file size ∷ map (spec.test_file choices.now) (range_with_len 0 (min size 16)) ++ spec.support_file ∷ []) }
{
    let mut files = Vec::new(alloc);
    let main = main_func(alloc, size)?;
    files.push(file_of_one(alloc, b"m.c", main)?)?;
    put_test_files(alloc, &mut files, choices, size.min(FILE_COUNT))?;
    let support = support(alloc)?;
    files.push(file_of_one(alloc, b"s.c", support)?)?;
    Ok(files)
}

/// The firmware of this size by what its functions do.
fn firmware_by(alloc: Global, choices: &[Choice], size: u32) -> Result<Firmware, AllocError>
    requires length { length choices.now ≤ 200 }
    requires within { AreWithin 200 choices.now }
    requires size { size ≤ 200 }
    ensures { IfOk result (λ firmware. firmware_of firmware ≡ spec.firmware_by size choices.now) }
{
    let periphs = ports(alloc)?;
    let globals = globals(alloc, size)?;
    let files = files(alloc, choices, size)?;
    Ok(Firmware {
        structs: ListVec::new(Vec::new(alloc)),
        periphs: ListVec::new(periphs),
        globals: ListVec::new(globals),
        files: ListVec::new(files),
    })
}

/// The firmware of a seed and a size, which is the number of its functions that are drawn.
pub fn make(alloc: Global, seed: u32, size: u32) -> Result<Firmware, AllocError>
    requires least { 1 ≤ size }
    requires most { size ≤ 200 }
    ensures { IfOk result (λ firmware. firmware_of firmware ≡ spec.made seed size) }
{
    let choices = choices(alloc, seed, size)?;
    firmware_by(alloc, choices.as_slice(), size)
}
