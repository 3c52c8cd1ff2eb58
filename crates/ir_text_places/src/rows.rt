//! Rows of names, and the numbers of names in them.

ghost use Rattle.std.specs.Prelude.{◌≡◌, ◌≤◌, ◌++◌, [], map, length, true, false, OnOk, MatchOption, bytes_eq};
ghost use Rattle.std.specs.List.{position};
ghost use Rattle.base_names.specs.Numbers.{has, number_of};
ghost use Rattle.ir_model.specs.Plain.{PlainStruct, PlainGlobal, PlainFile, PlainFunc, binding_of, struct_of, global_of, file_of, names_of, lent_funcs};
ghost use Rattle.ir_text_places.specs.Faulty as faulty;
ghost use Rattle.ir_text_places.specs.Faulty.{has_twice, second_of};
ghost use Rattle.ir_text_places.specs.Rows.{names_in};

use base_names::Name;
use ir_model::firmware::{
    Binding, Block, FileDecl, Func, Global as GlobalDecl, Peripheral, StructDecl,
};
use std::alloc::AllocError;

/// Puts the names of structs behind others.
pub fn put_structs<'a>(row: &mut Vec<&'a Name>, structs: &'a [StructDecl]) -> Result<(), AllocError>
    ensures { OnOk result (names_in row.new.items ≡ names_in row.old.items ++ map (λ (s : PlainStruct). s.name) (map struct_of structs.now)) }
{
    for decl in structs {
        row.push(&decl.name)?;
    }
    Ok(())
}

/// Puts the names of peripherals behind others.
pub fn put_periphs<'a>(row: &mut Vec<&'a Name>, periphs: &'a [Peripheral]) -> Result<(), AllocError>
    ensures { OnOk result (names_in row.new.items ≡ names_in row.old.items ++ map (λ q. q.name) periphs.now) }
{
    for periph in periphs {
        row.push(&periph.name)?;
    }
    Ok(())
}

/// Puts the names of globals behind others.
pub fn put_globals<'a>(row: &mut Vec<&'a Name>, globals: &'a [GlobalDecl]) -> Result<(), AllocError>
    ensures { OnOk result (names_in row.new.items ≡ names_in row.old.items ++ map (λ (g : PlainGlobal). g.name) (map global_of globals.now)) }
{
    for global in globals {
        row.push(&global.name)?;
    }
    Ok(())
}

/// Puts the names of files behind others.
pub fn put_files<'a>(row: &mut Vec<&'a Name>, files: &'a [FileDecl]) -> Result<(), AllocError>
    ensures { OnOk result (names_in row.new.items ≡ names_in row.old.items ++ map (λ (f : PlainFile). f.name) (map file_of files.now)) }
{
    for file in files {
        row.push(&file.name)?;
    }
    Ok(())
}

/// Puts the names of functions that are lent behind others.
pub fn put_funcs<'a>(row: &mut Vec<&'a Name>, bodies: &[&'a Func]) -> Result<(), AllocError>
    ensures { OnOk result (names_in row.new.items ≡ names_in row.old.items ++ map (λ (f : PlainFunc). f.name) (lent_funcs bodies.now)) }
{
    for func in bodies {
        row.push(&func.name)?;
    }
    Ok(())
}

/// Puts the names of bindings behind others.
pub fn put_bindings<'a>(row: &mut Vec<&'a Name>, bindings: &'a [Binding]) -> Result<(), AllocError>
    ensures { OnOk result (names_in row.new.items ≡ names_in row.old.items ++ names_of (map binding_of bindings.now)) }
{
    for binding in bindings {
        row.push(&binding.name)?;
    }
    Ok(())
}

/// Puts the labels of blocks behind others.
pub fn put_labels<'a>(row: &mut Vec<&'a Name>, blocks: &'a [Block]) -> Result<(), AllocError>
    ensures { OnOk result (names_in row.new.items ≡ names_in row.old.items ++ map (λ b. b.label) blocks.now) }
{
    for block in blocks {
        row.push(&block.label)?;
    }
    Ok(())
}

fn first(row: &[&Name], name: &Name) -> Option<usize>
    ensures { result ≡ position (λ m. bytes_eq m.now name.now) row.now }
{
    row.iter().position(|other| other.same(name))
}

/// The number of the first that has a name, or how many there are where none has it.
#[tactic(auto, using(crate::proofs::Numbered::number_some, crate::proofs::Numbered::number_none, crate::proofs::Numbered::number_within))]
pub fn number(row: &[&Name], name: &Name) -> usize
    ensures exact { result ≡ number_of (names_in row.now) name.now }
    ensures within { result ≤ length row.now }
{
    match first(row, name) {
        Some(place) => place,
        None => row.len(),
    }
}

/// Whether a name is there.
#[tactic(auto, using(crate::proofs::Numbered::has_position))]
pub fn has(row: &[&Name], name: &Name) -> bool
    ensures { result ≡ has (names_in row.now) name.now }
{
    first(row, name).is_some()
}

/// The number of the second that has a name, where there is one.
#[tactic(auto, using(crate::proofs::Numbered::behind_is, crate::proofs::Numbered::no_first, crate::proofs::Numbered::second_yes))]
pub fn again(row: &[&Name], name: &Name) -> Option<usize>
    ensures { MatchOption result (has_twice (names_in row.now) name.now ≡ false)
        (λ k. (has_twice (names_in row.now) name.now ≡ true) × (k ≡ second_of (names_in row.now) name.now)) }
{
    let first = number(row, name);
    if first >= row.len() {
        return None;
    }
    let behind = &row[first + 1..];
    if has(behind, name) {
        Some(first + 1 + number(behind, name))
    } else {
        None
    }
}

// The number of the second that has a name, or of the first where there is no second.
#[tactic(auto, using(crate::proofs::Numbered::second_no))]
fn second(row: &[&Name], name: &Name) -> usize
    ensures { result ≡ second_of (names_in row.now) name.now }
{
    match again(row, name) {
        Some(place) => place,
        None => number(row, name),
    }
}

/// The number of an item by its name, where a fault may be that its name is there again: in a row behind others.
#[tactic(auto, using(crate::proofs::Numbered::in_again, crate::proofs::Numbered::in_once))]
pub fn number_in(before: &[&Name], row: &[&Name], again: bool, name: &Name) -> usize
    ensures { result ≡ faulty.number_in (names_in before.now) (names_in row.now) again name.now }
{
    if again && !has(before, name) {
        second(row, name)
    } else {
        number(row, name)
    }
}

/// The same, in a row with none before it.
#[tactic(auto, using(crate::proofs::Numbered::alone_again, crate::proofs::Numbered::alone_once))]
pub fn number_alone(row: &[&Name], again: bool, name: &Name) -> usize
    ensures { result ≡ faulty.number_in [] (names_in row.now) again name.now }
{
    if again {
        second(row, name)
    } else {
        number(row, name)
    }
}
