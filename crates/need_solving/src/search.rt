//! The search for the least sets.

ghost use Rattle.std.specs.Prelude.{◌≡◌, ◌≢◌, ◌+◌, ◌-◌, ◌*◌, ◌^◌, ◌<◌, ◌≤◌, ℕ, true, [], length, get_or, slice_get, OnOk, IfOk};
ghost use Rattle.need_sets.specs.declared.system.System as systems;
ghost use Rattle.need_sets.specs.Rules.{Relation, OnEdge, no_edge, lists_in};
ghost use Rattle.need_numbers.specs.Rows.{row};
ghost use Rattle.need_sets.specs.Solutions.{ObeysAll, is_in, IsAsked, IsBounded};
ghost use Rattle.need_solving.specs.Searching.{asked, pair_at, IsFound, IsSoundState, Grown, IsPut, IsCopied, IsFired, cost, IsPaid};

use crate::callees::asked_edge;
use crate::log::Log;
use crate::state::State;
use need_numbers::{Rows, StepCount};
use need_sets::{Edge, Pair, Pairs, System, Trigger};
use std::alloc::{AllocError, Global};
use std::sync::ledger::Ledger;

/// The place behind one.
fn after(place: u32) -> Result<u32, AllocError>
    ensures { IfOk result (λ n. n ≡ place + 1) }
{
    match place.checked_add(1) {
        Some(next) => Ok(next),
        None => Err(AllocError),
    }
}

/// The place behind one of the pairs.
fn behind(place: usize) -> Result<usize, AllocError>
    ensures next { IfOk result (λ n. n ≡ place + 1) }
    ensures fits { IfOk result (λ n. n < 2 ^ 64) }
{
    match place.checked_add(1) {
        Some(next) => Ok(next),
        None => Err(AllocError),
    }
}

impl State {
    fn put<L: Ledger>(
        &mut self,
        node: u32,
        object: u32,
        steps: &mut StepCount<L>,
    ) -> Result<(), AllocError>
        requires node { node < length self.old.pairs.rows }
        requires object { object < self.old.pairs.objects }
        ensures put { OnOk result (IsPut self.old self.new node object) }
        ensures counted { steps.new ≡ steps.old + 1 }
    {
        if self.pairs.add(node, object, steps)? {
            self.log.push(Pair { node, object })?;
        }
        Ok(())
    }
}

fn trigger_count(system: &System, node: u32) -> usize
    ensures { result ≡ length (get_or (lists_in system.now.rules.triggers) node []) }
{
    match system.rules.triggers.get(node as usize) {
        Some(triggers) => triggers.len(),
        None => 0,
    }
}

fn trigger_at<'a>(system: &System<'a>, node: u32, place: usize) -> Option<Trigger<'a>>
    ensures { result ≡ slice_get (get_or (lists_in system.now.rules.triggers) node []) place }
{
    match system.rules.triggers.get(node as usize) {
        Some(triggers) => triggers.as_slice().get(place).copied(),
        None => None,
    }
}

/// Puts the objects of a node to another's.
fn copy<L: Ledger>(
    system: &System,
    state: &mut State,
    edge: Edge,
    steps: &mut StepCount<L>,
) -> Result<(), AllocError>
    requires holds { IsSoundState system.now state.old }
    requires from { edge.from < length state.old.pairs.rows }
    requires to { edge.to < length state.old.pairs.rows }
    requires apart { edge.from ≢ edge.to }
    requires asked { IsAsked system.now state.old.pairs.rows edge }
    ensures holds { OnOk result (IsSoundState system.now state.new) }
    ensures copied { OnOk result (IsCopied state.old state.new edge) }
    ensures counted { OnOk result (steps.new ≤ steps.old + 1 + 2 * length (row state.old.pairs.rows edge.from)) }
{
    let mut place: u32 = 0;
    while let Some(object) = state.pairs.member(edge.from, place, steps) {
        state.put(edge.to, object, steps)?;
        place = after(place)?;
    }
    Ok(())
}

/// Passes a node on to another from now on.
fn put_edge<L: Ledger>(
    system: &System,
    state: &mut State,
    edge: Edge,
    steps: &mut StepCount<L>,
) -> Result<(), AllocError>
    requires holds { IsSoundState system.now state.old }
    requires asked { IsAsked system.now state.old.pairs.rows edge }
    ensures holds { OnOk result (IsSoundState system.now state.new) }
    ensures grown { OnOk result (Grown state.old state.new) }
    ensures next { OnOk result (state.new.next ≡ state.old.next) }
    ensures found { OnOk result (IsFound state.new.edges edge) }
    ensures paid { OnOk result (IsPaid state.old state.new steps.old steps.new) }
{
    let count = state.edges.len();
    if edge.from as usize >= count || edge.to as usize >= count {
        return Err(AllocError);
    }
    if edge.from == edge.to {
        return Ok(());
    }
    if state.edges.contains(edge.from, edge.to) {
        return Ok(());
    }
    copy(system, state, edge, steps)?;
    state.edges.add(edge.from, edge.to)?;
    Ok(())
}

/// Passes the object of the next pair on.
fn pass_on<L: Ledger>(
    system: &System,
    state: &mut State,
    pair: Pair,
    steps: &mut StepCount<L>,
) -> Result<(), AllocError>
    requires holds { IsSoundState system.now state.old }
    requires next { state.old.next < length state.old.log }
    requires pair { pair ≡ pair_at state.old.log state.old.next }
    ensures holds { OnOk result (IsSoundState system.now state.new) }
    ensures grown { OnOk result (Grown state.old state.new) }
    ensures next { OnOk result (state.new.next ≡ state.old.next + 1) }
    ensures fits { OnOk result (state.new.next < 2 ^ 64) }
    ensures paid { OnOk result (IsPaid state.old state.new steps.old steps.new) }
{
    let mut place: u32 = 0;
    while let Some(to) = state.edges.get(pair.node, place) {
        state.put(to, pair.object, steps)?;
        place = after(place)?;
    }
    state.next = behind(state.next)?;
    Ok(())
}

/// Does what one trigger asks for an object.
fn pull<L: Ledger>(
    system: &System,
    state: &mut State,
    trigger: &Trigger,
    object: u32,
    steps: &mut StepCount<L>,
) -> Result<(), AllocError>
    requires holds { IsSoundState system.now state.old }
    requires asked { OnEdge (asked system.now trigger.now object) (IsAsked system.now state.old.pairs.rows) }
    ensures holds { OnOk result (IsSoundState system.now state.new) }
    ensures grown { OnOk result (Grown state.old state.new) }
    ensures next { OnOk result (state.new.next ≡ state.old.next) }
    ensures found { OnOk result (OnEdge (asked system.now trigger.now object) (IsFound state.new.edges)) }
    ensures paid { OnOk result (IsPaid state.old state.new steps.old steps.new) }
{
    let Some(edge) = asked_edge(system, trigger, object) else {
        return Ok(());
    };
    put_edge(system, state, edge, steps)
}

/// Does what is asked for a pair.
fn fire<L: Ledger>(
    system: &System,
    state: &mut State,
    pair: Pair,
    steps: &mut StepCount<L>,
) -> Result<(), AllocError>
    requires holds { IsSoundState system.now state.old }
    requires there { is_in state.old.pairs.rows pair.node pair.object ≡ true }
    ensures holds { OnOk result (IsSoundState system.now state.new) }
    ensures grown { OnOk result (Grown state.old state.new) }
    ensures next { OnOk result (state.new.next ≡ state.old.next) }
    ensures fired { OnOk result (IsFired system.now state.new.edges pair) }
    ensures paid { OnOk result (IsPaid state.old state.new steps.old steps.new) }
{
    for place in 0..trigger_count(system, pair.node) {
        let Some(trigger) = trigger_at(system, pair.node, place) else {
            return Ok(());
        };
        pull(system, state, &trigger, pair.object, steps)?;
    }
    Ok(())
}

fn fact_at(system: &System, place: usize) -> Pair
    requires { place < length system.now.rules.facts.items }
    ensures { result ≡ pair_at system.now.rules.facts.items place }
{
    system.rules.facts[place]
}

fn copy_at(system: &System, place: usize) -> Edge
    requires { place < length system.now.rules.copies.items }
    ensures { result ≡ get_or system.now.rules.copies.items place no_edge }
{
    system.rules.copies[place]
}

fn put_facts<L: Ledger>(
    system: &System,
    state: &mut State,
    objects: u32,
    steps: &mut StepCount<L>,
) -> Result<(), AllocError>
    requires holds { IsSoundState system.now state.old }
    requires objects { objects ≡ state.old.pairs.objects }
    ensures holds { OnOk result (IsSoundState system.now state.new) }
    ensures grown { OnOk result (Grown state.old state.new) }
    ensures next { OnOk result (state.new.next ≡ state.old.next) }
    ensures counted { OnOk result (steps.new + cost state.old ≤ steps.old + length system.now.rules.facts.items + cost state.new) }
    ensures there { OnOk result ((k : ℕ) → k < length system.now.rules.facts.items → is_in state.new.pairs.rows (pair_at system.now.rules.facts.items k).node (pair_at system.now.rules.facts.items k).object ≡ true) }
{
    let nodes = state.edges.len();
    for place in 0..system.rules.facts.len() {
        let fact = fact_at(system, place);
        if fact.node as usize >= nodes || fact.object >= objects {
            return Err(AllocError);
        }
        state.put(fact.node, fact.object, steps)?;
    }
    Ok(())
}

fn put_copies<L: Ledger>(
    system: &System,
    state: &mut State,
    steps: &mut StepCount<L>,
) -> Result<(), AllocError>
    requires holds { IsSoundState system.now state.old }
    ensures holds { OnOk result (IsSoundState system.now state.new) }
    ensures grown { OnOk result (Grown state.old state.new) }
    ensures next { OnOk result (state.new.next ≡ state.old.next) }
    ensures paid { OnOk result (IsPaid state.old state.new steps.old steps.new) }
    ensures found { OnOk result ((k : ℕ) → k < length system.now.rules.copies.items → IsFound state.new.edges (get_or system.now.rules.copies.items k no_edge)) }
{
    for place in 0..system.rules.copies.len() {
        let edge = copy_at(system, place);
        put_edge(system, state, edge, steps)?;
    }
    Ok(())
}

/// A search that has found nothing, of any system.
fn begin(alloc: Global, nodes: u32, objects: u32) -> Result<State, AllocError>
    ensures holds { IfOk result (λ state. (w : systems.System) → IsSoundState w state) }
    ensures objects { IfOk result (λ state. state.pairs.objects ≡ objects) }
    ensures count { IfOk result (λ state. length state.pairs.rows ≡ nodes) }
    ensures next { IfOk result (λ state. state.next ≡ 0) }
{
    let pairs = Pairs::new(alloc, nodes, objects)?;
    let edges = Rows::new(alloc, nodes)?;
    Ok(State {
        pairs,
        edges,
        log: Log::new(alloc),
        next: 0,
    })
}

/// The least pairs of `nodes` nodes and `objects` objects that obey the rules.
///
/// # Errors
///
/// There is no memory for them, or a rule names a node or an object that is not there.
pub fn least_pairs<L: Ledger>(
    system: &System,
    alloc: Global,
    nodes: u32,
    objects: u32,
    steps: &mut StepCount<L>,
) -> Result<Pairs, AllocError>
    ensures closed { IfOk result (λ pairs. ObeysAll system.now (is_in pairs.rows)) }
    ensures bounded { IfOk result (λ pairs. IsBounded system.now pairs.rows (steps.new - steps.old)) }
    ensures count { IfOk result (λ pairs. length pairs.rows ≡ nodes) }
    ensures objects { IfOk result (λ pairs. pairs.objects ≡ objects) }
    ensures least { IfOk result (λ pairs. (Q : Relation) → ObeysAll system.now Q → (n o : ℕ) → is_in pairs.rows n o ≡ true → Q n o ≡ true) }
{
    let mut state = begin(alloc, nodes, objects)?;
    put_facts(system, &mut state, objects, steps)?;
    put_copies(system, &mut state, steps)?;
    while let Some(pair) = state.log.get(state.next) {
        pass_on(system, &mut state, pair, steps)?;
        fire(system, &mut state, pair, steps)?;
    }
    let State {
        pairs,
        edges: _,
        log: _,
        next: _,
    } = state;
    Ok(pairs)
}
