//! What the functions of a generated firmware do.

ghost use Rattle.std.specs.Prelude.{◌≡◌, ◌<◌, ◌+◌, ◌%◌, length, IsTrue, IfOk};
ghost use Rattle.ir_generator.specs.Draws as draws;
ghost use Rattle.ir_generator.specs.Choices as spec;

use crate::draws::Draws;
use std::alloc::{AllocError, Global};

/// The body of a function of one parameter, a word, which gives a word.
#[derive(Clone, Copy)]
pub enum Body {
    /// Adds the word to the global of this number, and gives the sum.
    Adds(u32),
    /// Stores the word to the peripheral of this number, and gives it.
    Stores(u32),
    /// Calls the function of this number with the word, and gives the exclusive or of both.
    Calls(u32),
    /// Keeps the word in a local, lends it to a function that doubles it, and gives what it holds then.
    Lends,
}

/// What was chosen for a function.
#[derive(Clone, Copy)]
pub struct Choice {
    /// Its body.
    pub body: Body,
    /// How many functions are active at most while it runs, but `main`.
    pub depth: u32,
}

/// How many functions lend a local at most.
const LENDING_LIMIT: usize = 32;

/// How deep a function is at most.
const CALLING_LIMIT: u32 = 3;

fn adds(global: u32) -> Choice
    ensures { result ≡ spec.adds global }
{
    Choice {
        body: Body::Adds(global),
        depth: 1,
    }
}

fn is_lending(choice: &Choice) -> bool
    ensures { result ≡ spec.is_lending choice.now }
{
    matches!(choice.body, Body::Lends)
}

/// Whether one more function may lend a local.
fn may_lend(earlier: &[Choice]) -> bool
    ensures { result ≡ spec.may_lend earlier.now }
{
    earlier.iter().filter(|choice| is_lending(choice)).count() < LENDING_LIMIT
}

fn depth_at(earlier: &[Choice], number: u32) -> u32
    requires { number < length earlier.now }
    ensures { result ≡ spec.depth_at earlier.now number }
{
    earlier[number as usize].depth
}

/// Whether the function of this number is an earlier one that is not too deep to be called.
fn may_call(earlier: &[Choice], number: u32) -> bool
    ensures is { result ≡ spec.may_call earlier.now number }
    ensures there { IsTrue result → number < length earlier.now }
    ensures shallow { IsTrue result → spec.depth_at earlier.now number < 3 }
{
    (number as usize) < earlier.len() && depth_at(earlier, number) < CALLING_LIMIT
}

/// Calls the function of this number where that may be, and else adds.
fn calls(earlier: &[Choice], number: u32) -> Choice
    ensures { result ≡ spec.calls earlier.now number }
{
    if may_call(earlier, number) {
        Choice {
            body: Body::Calls(number),
            depth: depth_at(earlier, number) + 1,
        }
    } else {
        adds(number)
    }
}

/// The choice by the kind and the number that were drawn, behind earlier functions.
fn chosen(earlier: &[Choice], kind: u32, number: u32) -> Choice
    ensures { result ≡ spec.chosen earlier.now kind number }
{
    match kind {
        0 => adds(number),
        1 => Choice {
            body: Body::Stores(number % 4),
            depth: 1,
        },
        2 => calls(earlier, number),
        _ if may_lend(earlier) => Choice {
            body: Body::Lends,
            depth: 2,
        },
        _ => adds(number),
    }
}

/// What all functions of a firmware do, by the seed and the size.
#[tactic(auto, using(crate::proofs::Bodies::choices_within, crate::proofs::Bodies::choices_length))]
pub fn choices(alloc: Global, seed: u32, size: u32) -> Result<Vec<Choice>, AllocError>
    requires { 0 < size }
    ensures are { IfOk result (λ choices. choices.items ≡ spec.choices seed size size) }
    ensures count { IfOk result (λ choices. length choices.items ≡ size) }
    ensures within { IfOk result (λ choices. spec.AreWithin size choices.items) }
{
    let mut draws = Draws::new(seed);
    let mut choices = Vec::new(alloc);
    for _number in 0..size {
        let kind = draws.draw(4);
        let number = draws.draw(size);
        choices.push(chosen(choices.as_slice(), kind, number))?;
    }
    Ok(choices)
}
