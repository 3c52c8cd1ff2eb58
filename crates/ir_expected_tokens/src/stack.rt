//! What is expected in a text, as it is read.

ghost use Rattle.std.specs.Prelude.{◌≡◌, ◌<◌, [], ◌++◌, length, take, reverse, Some, None, false, IfSome, IfOk, OnOk, if◌then◌else◌};
ghost use Rattle.std.specs.Option.{option_map};
ghost use Rattle.ir_expected_tokens.specs.Grammar.{listed};
ghost use Rattle.ir_expected_tokens.specs.Expected as expected;

use crate::grammar::{Class, Part, Row, START, Symbol, is_class, may_be_missing, rows};
use std::alloc::{AllocError, Global};
use std::marker::Model;

/// What is expected, in order.
#[derive(Drop)]
pub(crate) struct Stack {
    symbols: Vec<Symbol>,
}

impl Model for Stack {
    ghost use Rattle.std.specs.Prelude.{List, reverse};
    ghost use Rattle.ir_expected_tokens.specs.declared.grammar.Symbol.{Symbol};

    ghost Value = { List Symbol };

    ghost view = { λ s. reverse s.symbols.items };
}

/// Whether nothing may stand in place of a symbol.
pub(crate) fn may_miss(symbol: Symbol) -> bool
    ensures { result ≡ expected.may_be_missing symbol }
{
    match symbol {
        Symbol::Token(_) => false,
        Symbol::Part(part) => may_be_missing(part),
    }
}

/// What is expected behind a token of a class, by the first of these rows that it begins.
fn behind_row(rows: &'static [Row], class: Class) -> Option<&'static [Symbol]>
    ensures { option_map (λ more. more.now) result ≡ expected.behind_row (listed (λ more. more.now) rows.now) class }
{
    match rows {
        [] => None,
        [row, others @ ..] => {
            if is_class(row.0, class) {
                Some(row.1)
            } else {
                behind_row(others, class)
            }
        }
    }
}

/// Whether a name is the result that `ret` gives.
fn is_result(symbol: Symbol, class: Class, colon: bool) -> bool
    ensures { result ≡ expected.is_result symbol class colon }
{
    matches!((symbol, class), (Symbol::Part(Part::Result), Class::Name)) && !colon
}

/// What is expected behind a token that stands for a symbol, where it can.
fn behind(symbol: Symbol, class: Class, colon: bool) -> Option<&'static [Symbol]>
    ensures { option_map (λ more. more.now) result ≡ expected.behind symbol class colon }
{
    if is_result(symbol, class, colon) {
        return Some(&[]);
    }
    match symbol {
        Symbol::Token(own) if is_class(own, class) => Some(&[]),
        Symbol::Token(_) => None,
        Symbol::Part(part) => behind_row(rows(part), class),
    }
}

/// How many symbols stay below the one for which a token stands, and what is expected in its place, where the last is
/// expected first.
fn place(symbols: &[Symbol], class: Class, colon: bool) -> Option<(usize, &'static [Symbol])>
    ensures within { IfSome result (λ x. x.0 < length symbols.now) }
    ensures taken { option_map (λ x. x.1.now ++ reverse (take x.0 symbols.now)) result ≡ expected.taken (reverse symbols.now) class colon }
{
    let (symbol, below) = symbols.split_last()?;
    if let Some(more) = behind(*symbol, class, colon) {
        return Some((below.len(), more));
    }
    if may_miss(*symbol) {
        return place(below, class, colon);
    }
    None
}

impl Stack {
    /// What is expected where a text begins.
    pub fn new(alloc: Global) -> Result<Stack, AllocError>
        ensures { IfOk result (λ s. s ≡ START.now) }
    {
        let mut stack = Stack {
            symbols: Vec::new(alloc),
        };
        stack.put(START)?;
        Ok(stack)
    }

    /// Expects these first.
    fn put(&mut self, more: &[Symbol]) -> Result<(), AllocError>
        ensures { OnOk result (self.new ≡ more.now ++ self.old) }
    {
        match more {
            [] => Ok(()),
            [first, others @ ..] => {
                self.put(others)?;
                self.symbols.push(*first)?;
                Ok(())
            }
        }
    }

    /// Takes a token of a class, where it may stand there; else nothing changes.
    pub fn take(&mut self, class: Class, colon: bool) -> Result<bool, AllocError>
        ensures taken { IfOk result (λ took. expected.taken self.old class colon ≡ (if took then Some self.new else None)) }
        ensures same { IfOk result (λ took. took ≡ false → self.new ≡ self.old) }
    {
        let Some((below, more)) = place(self.symbols.as_slice(), class, colon) else {
            return Ok(false);
        };
        self.symbols.truncate(below);
        self.put(more)?;
        Ok(true)
    }

    /// What is expected, where the last is expected first.
    pub fn symbols(&self) -> &[Symbol]
        ensures { reverse result.now ≡ self.now }
    {
        self.symbols.as_slice()
    }
}
