//! Lists of objects, of which equal ones share their memory.

ghost use Rattle.std.specs.Prelude.{◌≡◌, ◌<◌, ◌++◌, ◌∷◌, [], true, length, get_or, IfOk, OnOk, OnErr};
ghost use Rattle.need_sets.specs.Sets.{IsLonger};

use base_lists::ListVec;
use ir_model::object::ObjId;
use std::alloc::{AllocError, Global};
use std::marker::Model;

/// The most places for lists that are known by their sums.
const KNOWN: usize = 1024;

/// A list of objects for each row. Equal lists are kept once, where the other came not long ago.
pub struct SharedRows {
    lists: Vec<ListVec<ObjId>>,
    numbers: Vec<u32>,
    known: Vec<u32>,
}

impl Drop for SharedRows {
    fn drop(self) {
        let SharedRows {
            lists: _,
            numbers: _,
            known: _,
        } = self;
    }
}

impl Model for SharedRows {
    ghost use Rattle.std.specs.Prelude.{List};
    ghost use Rattle.ir_model.specs.declared.object.ObjId.{ObjId};
    ghost use Rattle.need_sets.specs.Sets.{rows_by, AreOfLists};

    ghost Value = { List (List ObjId) };

    ghost view = { λ r. rows_by r.lists.items r.numbers.items };

    ghost invariant = { λ r. AreOfLists r.lists.items r.numbers.items r.known.items };
}

/// A number for an object. Others may have it too.
fn number_of(object: &ObjId) -> u32 {
    match object {
        ObjId::Global(global) => *global,
        ObjId::Periph(periph) => *periph ^ 0x4000_0000,
        ObjId::Local { func, local } => func.wrapping_mul(64) ^ *local ^ 0x8000_0000,
        ObjId::Func(func) => *func ^ 0xc000_0000,
    }
}

/// The place at which a list is looked for, of `places` places for lists that are known. Equal lists have the same place.
fn place_of(objects: &[ObjId], places: usize) -> usize
    requires { 0 < places }
    ensures { result < places }
{
    let mut sum: u32 = 0;
    for object in objects {
        sum = sum.wrapping_mul(0x0100_0193) ^ number_of(object);
    }
    (sum.wrapping_mul(0x9e37_79b1) >> 7) as usize % places
}

/// Whether two lists are equal.
fn are_equal(one: &[ObjId], other: &[ObjId]) -> bool
    ensures { result ≡ true → one.now ≡ other.now }
{
    one == other
}

/// Whether a list that is known is equal to one.
fn is_list(lists: &[ListVec<ObjId>], number: u32, objects: &[ObjId]) -> bool
    ensures there { result ≡ true → number < length lists.now }
    ensures equal { result ≡ true → get_or lists.now number [] ≡ objects.now }
{
    match lists.get(number as usize) {
        Some(list) => are_equal(list.as_slice(), objects),
        None => false,
    }
}

/// Puts a list behind the others.
fn put_list(lists: &mut Vec<ListVec<ObjId>>, row: Vec<ObjId>) -> Result<u32, AllocError>
    ensures longer { IsLonger lists.old.items lists.new.items }
    ensures there { IfOk result (λ number. number < length lists.new.items) }
    ensures equal { IfOk result (λ number. get_or lists.new.items number [] ≡ row.items) }
{
    let Ok(number) = u32::try_from(lists.len()) else {
        return Err(AllocError);
    };
    lists.push(ListVec::new(row))?;
    Ok(number)
}

/// The number of a list with these objects, which is put behind the others where none is known.
fn share(
    lists: &mut Vec<ListVec<ObjId>>,
    known: &mut Vec<u32>,
    row: Vec<ObjId>,
) -> Result<u32, AllocError>
    requires { 0 < length known.old.items }
    ensures count { length known.new.items ≡ length known.old.items }
    ensures longer { IsLonger lists.old.items lists.new.items }
    ensures there { IfOk result (λ number. number < length lists.new.items) }
    ensures equal { IfOk result (λ number. get_or lists.new.items number [] ≡ row.items) }
{
    let place = place_of(row.as_slice(), known.len());
    let number = known[place];
    if is_list(lists.as_slice(), number, row.as_slice()) {
        return Ok(number);
    }
    let number = put_list(lists, row)?;
    known[place] = number;
    Ok(number)
}

impl SharedRows {
    /// No rows, with places to know lists by for the rows that will come.
    ///
    /// # Errors
    ///
    /// There is no memory for these places.
    pub fn new(alloc: Global, expected: usize) -> Result<SharedRows, AllocError>
        ensures { IfOk result (λ rows. rows ≡ []) }
    {
        let places = if expected < KNOWN {
            expected + 1
        } else {
            KNOWN
        };
        let mut known = Vec::new(alloc);
        known.resize(places, 0)?;
        Ok(SharedRows {
            lists: Vec::new(alloc),
            numbers: Vec::new(alloc),
            known,
        })
    }

    /// Puts a row behind the others.
    ///
    /// # Errors
    ///
    /// There is no memory for it. Then the rows are as they were.
    #[tactic(auto, using(crate::proofs::Shares::rows_stay))]
    pub fn push(&mut self, row: Vec<ObjId>) -> Result<(), AllocError>
        ensures pushed { OnOk result (self.new ≡ self.old ++ row.items ∷ []) }
        ensures kept { OnErr result (self.new ≡ self.old) }
    {
        let number = share(&mut self.lists, &mut self.known, row)?;
        self.numbers.push(number)?;
        Ok(())
    }

    /// The objects of a row; none for an absent one.
    pub(crate) fn row(&self, number: usize) -> &[ObjId]
        ensures { result.now ≡ get_or self.now number [] }
    {
        match self.numbers.get(number) {
            Some(list) => self.lists[*list as usize].as_slice(),
            None => &[],
        }
    }
}
