//! Which functions reach themselves by calls.

ghost use Rattle.std.specs.Prelude.{◌≡◌, ◌↔◌, ◌<◌, ℕ, true, false, ◌||◌, ◌⊎◌, length, get_or, IfOk, OnOk, Contains};
ghost use Rattle.needs.specs.Reaching.{IsSquare, IsPassed, IsClosedBy, HasCallees, AreRecursive};

use plan_model::needs::FuncNeed;
use std::alloc::{AllocError, Global};
use std::marker::Model;

// A function is reached, if it is there.
fn mark(flags: &mut Vec<bool>, func: usize)
    ensures len { length flags.new.items ≡ length flags.old.items }
    ensures flags { (g : ℕ) → g < length flags.old.items → get_or flags.new.items g false ≡ true ↔ ((get_or flags.old.items g false ≡ true) ⊎ (func ≡ g)) }
{
    if func < flags.len() {
        flags[func] = true;
    }
}

fn put_all(flags: &mut [bool], others: &[bool])
    requires { length flags.old ≡ length others.now }
    ensures len { length flags.new ≡ length flags.old }
    ensures flags { (g : ℕ) → get_or flags.new g false ≡ (get_or flags.old g false || get_or others.now g false) }
{
    for i in 0..flags.len() {
        let both = flags[i] | others[i];
        flags[i] = both;
    }
}

/// For each function, whether it is reached.
#[derive(Drop)]
struct Row {
    flags: Vec<bool>,
}

impl Model for Row {
    ghost use Rattle.std.specs.Prelude.{List, Bool};

    ghost Value = { List Bool };

    ghost view = { λ r. r.flags.items };
}

impl Row {
    fn with(alloc: Global, funcs: &[u32], count: usize) -> Result<Row, AllocError>
        ensures len { IfOk result (λ row. length row ≡ count) }
        ensures flags { IfOk result (λ row. (g : ℕ) → g < count → get_or row g false ≡ true ↔ Contains funcs.now g) }
    {
        let mut flags = vec![in alloc; false; count]?;
        for i in 0..funcs.len() {
            mark(&mut flags, funcs[i] as usize);
        }
        Ok(Row { flags })
    }

    fn copy(&self, alloc: Global) -> Result<Row, AllocError>
        ensures { IfOk result (λ row. row ≡ self.now) }
    {
        Ok(Row {
            flags: Vec::from_slice(alloc, self.flags.as_slice())?,
        })
    }

    fn has(&self, func: usize) -> bool
        requires { func < length self.now }
        ensures { result ≡ get_or self.now func false }
    {
        self.flags[func]
    }

    /// Adds what another row has.
    fn join(&mut self, other: &Row)
        requires { length self.old ≡ length other.now }
        ensures len { length self.new ≡ length self.old }
        ensures flags { (g : ℕ) → get_or self.new g false ≡ (get_or self.old g false || get_or other.now g false) }
    {
        put_all(self.flags.as_mut_slice(), other.flags.as_slice());
    }
}

/// Each row that has a function gets what that function's row has.
fn pass(alloc: Global, rows: &mut Vec<Row>, through: usize) -> Result<(), AllocError>
    requires square { IsSquare (length rows.old.items) rows.old.items }
    requires through { through < length rows.old.items }
    ensures square { OnOk result (IsSquare (length rows.old.items) rows.new.items) }
    ensures passed { OnOk result (IsPassed through rows.old.items rows.new.items) }
{
    let via = rows[through].copy(alloc)?;
    for i in 0..rows.len() {
        let row = &mut rows[i];
        if row.has(through) {
            row.join(&via);
        }
    }
    Ok(())
}

fn close(alloc: Global, rows: &mut Vec<Row>) -> Result<(), AllocError>
    requires { IsSquare (length rows.old.items) rows.old.items }
    ensures square { OnOk result (IsSquare (length rows.old.items) rows.new.items) }
    ensures closed { OnOk result (IsClosedBy (length rows.old.items) rows.old.items rows.new.items) }
{
    for through in 0..rows.len() {
        pass(alloc, rows, through)?;
    }
    Ok(())
}

fn callee_rows(alloc: Global, needs: &[FuncNeed]) -> Result<Vec<Row>, AllocError>
    ensures square { IfOk result (λ rows. IsSquare (length needs.now) rows.items) }
    ensures flags { IfOk result (λ rows. HasCallees needs.now rows.items) }
{
    let mut rows = Vec::new(alloc);
    for i in 0..needs.len() {
        rows.push(Row::with(alloc, needs[i].callees.as_slice(), needs.len())?)?;
    }
    Ok(rows)
}

/// For each function, whether it reaches itself by calls.
///
/// # Errors
///
/// There is no memory for it.
pub fn recursive(alloc: Global, needs: &[FuncNeed]) -> Result<Vec<bool>, AllocError>
    ensures count { IfOk result (λ flags. length flags.items ≡ length needs.now) }
    ensures flags { IfOk result (λ flags. AreRecursive needs.now flags.items) }
{
    let mut rows = callee_rows(alloc, needs)?;
    close(alloc, &mut rows)?;
    let mut flags = Vec::new(alloc);
    for i in 0..rows.len() {
        flags.push(rows[i].has(i))?;
    }
    Ok(flags)
}
