//! The bytes of pieces of code.

ghost use Rattle.std.specs.Prelude.{◌≡◌, ◌+◌, ◌-◌, ◌%◌, ◌<◌, ◌≤◌, ◌^◌, ◌++◌, length, OnOk, IfOk};
ghost use Rattle.machine_thumb.specs.Table.{InTable, encode, width_of};
ghost use Rattle.machine_thumb.specs.Bytes.{bytes_of_half, bytes_of_code};
ghost use Rattle.machine_thumb_asm.specs.Assembly as assembly;
ghost use Rattle.machine_thumb_asm.specs.declared.item.Item.TheVariants as items;
ghost use Rattle.machine_thumb_asm.specs.Finished as finished;

use crate::item::{BranchKind, Item, Label};
use crate::refusal::AsmRefusal;
use machine_thumb::{Code, Instr};
use machine_thumb_encoding::encode;
use std::alloc::{AllocError, Global};

/// The bytes of a branch.
pub(crate) fn branch_size(kind: BranchKind) -> u32
    ensures { result ≡ assembly.branch_size kind }
{
    match kind {
        BranchKind::Cond(_) | BranchKind::Short => 2,
        BranchKind::Long | BranchKind::Link => 4,
    }
}

/// The bytes of an instruction.
pub(crate) fn instruction_size(i: &Instr) -> u32
    requires { InTable i.now }
    ensures { result ≡ width_of (encode i.now) }
{
    match encode(i) {
        Code::Half(_) => 2,
        Code::Pair(_, _) => 4,
    }
}

fn put_half(bytes: &mut Vec<u8>, half: u16) -> Result<(), AllocError>
    ensures { OnOk result (bytes.new.items ≡ bytes.old.items ++ bytes_of_half half) }
{
    bytes.push((half % 0x100) as u8)?;
    bytes.push((half / 0x100) as u8)?;
    Ok(())
}

fn put_instruction(bytes: &mut Vec<u8>, i: &Instr) -> Result<(), AllocError>
    requires { InTable i.now }
    ensures { OnOk result (bytes.new.items ≡ bytes.old.items ++ bytes_of_code (encode i.now)) }
{
    match encode(i) {
        Code::Half(half) => put_half(bytes, half),
        Code::Pair(first, second) => {
            put_half(bytes, first)?;
            put_half(bytes, second)
        }
    }
}

/// Whether a branch reaches its label.
fn is_near(limit: u32, from: u32, to: u32) -> bool
    requires limit { limit ≤ 2 ^ 24 }
    requires from { from < 2 ^ 31 }
    requires to { to < 2 ^ 31 }
    ensures { result ≡ finished.is_near limit from to }
{
    from + 4 <= to + limit && to < from + 4 + limit
}

fn reach(kind: BranchKind) -> u32
    ensures exact { result ≡ finished.reach kind }
    ensures small { result ≤ 2 ^ 24 }
{
    match kind {
        BranchKind::Cond(_) => 0x100,
        BranchKind::Short => 0x800,
        BranchKind::Long | BranchKind::Link => 0x100_0000,
    }
}

/// The distance from the address of a branch plus 4 to another address.
#[tactic(auto, using(std::proofs::lemmas::Int::ints))]
fn distance(from: u32, to: u32) -> i32
    requires from { from < 2 ^ 31 }
    requires back { from + 4 ≤ to + 2 ^ 24 }
    requires forward { to < from + 4 + 2 ^ 24 }
    ensures { result ≡ finished.distance from to }
{
    if to < from + 4 {
        -((from + 4 - to) as i32)
    } else {
        (to - (from + 4)) as i32
    }
}

/// The instruction that branches from one address to another.
fn branch(kind: BranchKind, from: u32, to: u32) -> Instr
    requires from { from < 2 ^ 31 }
    requires back { from + 4 ≤ to + 2 ^ 24 }
    requires forward { to < from + 4 + 2 ^ 24 }
    ensures { result ≡ finished.branch kind from to }
{
    let offset = distance(from, to);
    match kind {
        BranchKind::Cond(cond) => Instr::BranchConditional { cond, offset },
        BranchKind::Short => Instr::CallBranch {
            op: 1,
            imm8: 0,
            offset,
        },
        BranchKind::Long => Instr::BranchWide { offset },
        BranchKind::Link => Instr::BranchLink { offset },
    }
}

/// Where a label was put.
fn place_of(places: &[Option<u32>], label: Label) -> u32
    requires { label.number < length places.now }
    ensures { result ≡ assembly.place_of places.now label.number }
{
    match places[label.number] {
        Some(place) => place,
        None => 0,
    }
}

fn put_branch(
    bytes: &mut Vec<u8>,
    kind: BranchKind,
    to: Label,
    at: u32,
    places: &[Option<u32>],
) -> Result<u32, AsmRefusal>
    requires condition { assembly.HasCondition kind }
    requires label { to.number < length places.now }
    requires even { assembly.place_of places.now to.number % 2 ≡ at % 2 }
    requires at { at + assembly.branch_size kind < 2 ^ 31 }
    requires place { assembly.place_of places.now to.number < 2 ^ 31 }
    ensures { finished.Puts places.now at (items.Branch kind to) bytes.old.items bytes.new.items result }
{
    let place = place_of(places, to);
    if !is_near(reach(kind), at, place) {
        return Err(AsmRefusal::FarBranch {
            from: at,
            to: place,
        });
    }
    put_instruction(bytes, &branch(kind, at, place))?;
    Ok(at + branch_size(kind))
}

fn put_item(
    bytes: &mut Vec<u8>,
    item: &Item,
    at: u32,
    places: &[Option<u32>],
) -> Result<u32, AsmRefusal>
    requires item { assembly.IsItem (length places.now) item.now }
    requires put { assembly.GoesSomewhere places.now at item.now }
    requires at { at + assembly.size_of item.now < 2 ^ 31 }
    ensures { finished.Puts places.now at item.now bytes.old.items bytes.new.items result }
{
    match *item {
        Item::Plain(i) => {
            put_instruction(bytes, &i)?;
            Ok(at + instruction_size(&i))
        }
        Item::Branch { kind, to } => put_branch(bytes, kind, to, at, places),
        Item::Half(half) => {
            put_half(bytes, half)?;
            Ok(at + 2)
        }
        Item::Word(word) => {
            put_half(bytes, (word % 0x1_0000) as u16)?;
            put_half(bytes, (word / 0x1_0000) as u16)?;
            Ok(at + 4)
        }
    }
}

/// The bytes of pieces of code from an address on.
pub(crate) fn put_items(
    alloc: Global,
    items: &[Item],
    base: u32,
    places: &[Option<u32>],
) -> Result<Vec<u8>, AsmRefusal>
    requires whole { assembly.IsAssembly (record { base = base; items = items.now; places = places.now }) }
    requires put { assembly.ArePut places.now items.now }
    ensures far { finished.Reaches (record { base = base; items = items.now; places = places.now }) result }
    ensures bytes { IfOk result (λ bytes. bytes.items ≡ finished.assembled (record { base = base; items = items.now; places = places.now })) }
{
    let mut bytes = Vec::new(alloc);
    let mut at = base;
    for item in items {
        at = put_item(&mut bytes, item, at, places)?;
    }
    Ok(bytes)
}
