//! Callbacks that put functions into groups, and the compartments that these are.

ghost use Rattle.std.specs.Prelude.{◌≡◌, ◌<◌, ℕ, List, length, IfOk};
ghost use Rattle.std.specs.List.{All};
ghost use Rattle.std.specs.Fn.{FnReturnsAt};
ghost use Rattle.plan_model.specs.Compartments.{compartments};
ghost use Rattle.plan_policies.specs.Callbacks.{IsGrouping, AreAnswers};
ghost use Rattle.plan_policies.specs.Functions.{AreFunctions};

use crate::numbering::compartments_by_group;
use plan_model::groups::{FuncFacts, Groups};
use std::alloc::{AllocError, Global};

/// A callback that gives the number of a group to each function, by what is known of the function.
pub struct Grouping<F: Fn(&FuncFacts) -> u32> {
    /// The callback.
    pub callback: F,
    /// How many functions there are: the callback may be called on facts whose index is below this.
    pub functions: u32,
    /// The callback's answers are below this.
    pub count: u32,
}

impl<F: Fn(&FuncFacts) -> u32> Grouping<F> {
    /// A grouping of `functions` functions by a callback that answers numbers below `count`.
    pub fn new(callback: F, functions: u32, count: u32) -> Grouping<F>
        requires { IsGrouping functions count (F.pre callback) (FnReturnsAt F.Fn callback) }
        ensures callback { result.callback ≡ callback }
        ensures functions { result.functions ≡ functions }
        ensures count { result.count ≡ count }
    {
        Grouping {
            callback,
            functions,
            count,
        }
    }

    /// The group of a function: what the callback answers.
    pub fn group(&self, facts: &FuncFacts) -> u32
        requires grouping { IsGrouping self.now.functions self.now.count (F.pre self.now.callback) (FnReturnsAt F.Fn self.now.callback) }
        requires index { facts.now.index < self.now.functions }
        ensures answer { FnReturnsAt F.Fn self.now.callback facts.now result }
        ensures below { result < self.now.count }
    {
        (self.callback)(facts)
    }
}

/// The groups of functions in order.
fn answers<F: Fn(&FuncFacts) -> u32>(
    alloc: Global,
    grouping: &Grouping<F>,
    facts: &[FuncFacts],
) -> Result<Vec<u32>, AllocError>
    requires grouping { IsGrouping grouping.now.functions grouping.now.count (F.pre grouping.now.callback) (FnReturnsAt F.Fn grouping.now.callback) }
    requires functions { AreFunctions facts.now }
    requires each { length facts.now ≡ grouping.now.functions }
    ensures answers { IfOk result (λ groups. AreAnswers (FnReturnsAt F.Fn grouping.now.callback) facts.now groups.items) }
    ensures below { IfOk result (λ groups. All (λ g. g < grouping.now.count) groups.items) }
{
    let mut groups = Vec::new(alloc);
    for i in 0..facts.len() {
        groups.push(grouping.group(&facts[i]))?;
    }
    Ok(groups)
}

/// The compartments that a grouping makes of functions: the groups that have a function, numbered in rising order.
///
/// # Errors
///
/// There is no memory for them.
pub fn groups<F: Fn(&FuncFacts) -> u32>(
    alloc: Global,
    grouping: &Grouping<F>,
    facts: &[FuncFacts],
) -> Result<Groups, AllocError>
    requires grouping { IsGrouping grouping.now.functions grouping.now.count (F.pre grouping.now.callback) (FnReturnsAt F.Fn grouping.now.callback) }
    requires functions { AreFunctions facts.now }
    requires each { length facts.now ≡ grouping.now.functions }
    ensures { IfOk result (λ made. (groups : List ℕ) × AreAnswers (FnReturnsAt F.Fn grouping.now.callback) facts.now groups × (made ≡ compartments groups)) }
{
    let groups = answers(alloc, grouping, facts)?;
    compartments_by_group(alloc, &groups, grouping.count)
}
