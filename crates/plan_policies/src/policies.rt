//! The three policies: the group of each function.

ghost use Rattle.std.specs.Prelude.{◌≡◌, ◌<◌, ℕ, length, map, IfOk};
ghost use Rattle.std.specs.List.{All, position_or_len};
ghost use Rattle.plan_model.specs.Lists.{same_numbers};
ghost use Rattle.plan_model.specs.Policies.{filename_groups, optimized_groups, peripheral_groups, by_name, common_group, move as moved, periph_lists};
ghost use Rattle.plan_policies.specs.Functions.{AreFunctions, IsAmong};

use plan_model::groups::FuncFacts;
use std::alloc::{AllocError, Global};

/// The functions of a file are a group: the number of each function's file.
///
/// # Errors
///
/// There is no memory for it.
pub fn filename_groups(alloc: Global, facts: &[FuncFacts]) -> Result<Vec<u32>, AllocError>
    ensures exact { IfOk result (λ groups. groups.items ≡ filename_groups facts.now) }
    ensures below { IfOk result (λ groups. (files : ℕ) → All (λ f. f.file < files) facts.now → All (λ g. g < files) groups.items) }
{
    let mut groups = Vec::new(alloc);
    for i in 0..facts.len() {
        groups.push(facts[i].file)?;
    }
    Ok(groups)
}

/// Functions that are lent, in order.
fn lent(alloc: Global, facts: &[FuncFacts]) -> Result<Vec<&FuncFacts>, AllocError>
    ensures { IfOk result (λ funcs. map (λ f. f.now) funcs.items ≡ facts.now) }
{
    let mut funcs = Vec::new(alloc);
    for i in 0..facts.len() {
        funcs.push(&facts[i])?;
    }
    Ok(funcs)
}

/// The functions in byte order of their names.
fn sorted_by_name(alloc: Global, facts: &[FuncFacts]) -> Result<Vec<&FuncFacts>, AllocError>
    requires { AreFunctions facts.now }
    ensures order { IfOk result (λ sorted. map (λ f. f.now) sorted.items ≡ by_name facts.now) }
    ensures among { IfOk result (λ sorted. All (λ f. IsAmong (length facts.now) f.now) sorted.items) }
{
    let mut sorted = lent(alloc, facts)?;
    sorted.sort_by(|a, b| a.name.order(&b.name))?;
    Ok(sorted)
}

/// The group in which all these functions stand, if there is one.
fn common(groups: &[u32], funcs: &[u32]) -> Option<u32>
    requires { All (λ f. f < length groups.now) funcs.now }
    ensures { result ≡ common_group groups.now funcs.now }
{
    if funcs.is_empty() {
        return None;
    }
    let group = groups[funcs[0] as usize];
    for i in 0..funcs.len() {
        if groups[funcs[i] as usize] != group {
            return None;
        }
    }
    Some(group)
}

/// A function without peripherals moves to the group in which all its callers stand, if there is one.
fn move_one(groups: &mut Vec<u32>, facts: &FuncFacts)
    requires { IsAmong (length groups.old.items) facts.now }
    ensures { groups.new.items ≡ moved groups.old.items facts.now }
{
    if !facts.periphs.is_empty() {
        return;
    }
    if let Some(group) = common(groups, facts.callers.as_slice()) {
        groups[facts.index as usize] = group;
    }
}

/// The groups of `filename`, changed: each function has its turn once, by the byte order of names, and one without peripherals
/// moves to the group in which all its callers stand at that moment, if there is one.
///
/// # Errors
///
/// There is no memory for it.
pub fn optimized_groups(alloc: Global, facts: &[FuncFacts]) -> Result<Vec<u32>, AllocError>
    requires { AreFunctions facts.now }
    ensures exact { IfOk result (λ groups. groups.items ≡ optimized_groups facts.now) }
    ensures below { IfOk result (λ groups. (files : ℕ) → All (λ f. f.file < files) facts.now → All (λ g. g < files) groups.items) }
{
    let mut groups = filename_groups(alloc, facts)?;
    let sorted = sorted_by_name(alloc, facts)?;
    for i in 0..sorted.len() {
        move_one(&mut groups, sorted[i]);
    }
    Ok(groups)
}

/// The place of the first list that has these numbers, or how many lists there are where none has.
fn place_of(lists: &[&[u32]], numbers: &[u32]) -> usize
    ensures { result ≡ position_or_len (λ l. same_numbers l.now numbers.now) lists.now }
{
    for i in 0..lists.len() {
        if lists[i] == numbers {
            return i;
        }
    }
    lists.len()
}

/// The different lists of peripherals, in the order of the first function of each.
fn different_periphs(alloc: Global, facts: &[FuncFacts]) -> Result<Vec<&[u32]>, AllocError>
    ensures { IfOk result (λ lists. map (λ l. l.now) lists.items ≡ periph_lists facts.now) }
{
    let mut lists = Vec::new(alloc);
    for i in 0..facts.len() {
        let periphs = facts[i].periphs.as_slice();
        if place_of(&lists, periphs) == lists.len() {
            lists.push(periphs)?;
        }
    }
    Ok(lists)
}

/// Functions of equal peripherals are a group; groups are numbered in the order of their first functions.
///
/// # Errors
///
/// There is no memory for it, or there are more groups than a number of 32 bits tells.
pub fn peripheral_groups(alloc: Global, facts: &[FuncFacts]) -> Result<Vec<u32>, AllocError>
    ensures exact { IfOk result (λ groups. groups.items ≡ peripheral_groups facts.now) }
    ensures below { IfOk result (λ groups. All (λ g. g < length facts.now) groups.items) }
{
    let lists = different_periphs(alloc, facts)?;
    let mut groups = Vec::new(alloc);
    for i in 0..facts.len() {
        let Ok(group) = u32::try_from(place_of(&lists, facts[i].periphs.as_slice())) else {
            return Err(AllocError);
        };
        groups.push(group)?;
    }
    Ok(groups)
}
