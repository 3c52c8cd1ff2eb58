//! A graph while it is merged.

ghost use Rattle.std.specs.Prelude.{◌≡◌, ◌<◌, ◌+◌, [], ◌∷◌, ◌++◌, length, map, OnOk, IfOk, option_map};
ghost use Rattle.std.specs.List.{All};
ghost use Rattle.ir_program.specs.Seen.{program_of};
ghost use Rattle.plan_model.specs.Choices.{Pair};
ghost use Rattle.plan_model.specs.Merging as merging;
ghost use Rattle.plan_model.specs.Regions as regions;
ghost use Rattle.plan_graph.specs.Choices.{pair_of, priced, cheapest_from, pairs_with};
ghost use Rattle.plan_graph.specs.Known.{AreCosts, IsKnown, row_of};
ghost use Rattle.plan_graph.specs.Merging.{IsMerging, CameTo};

use crate::choices::{Choice, cheaper};
use crate::flags::{is_flagged, union_of};
use crate::joined::{cover_pair, join_of, with_cover};
use crate::known::{Known, exposure, known_of};
use base_lists::ListVec;
use ir_program::program::Program;
use plan_model::graph::{Cover, DataRegion, Graph};
use std::alloc::{AllocError, Global};
use std::mem::replace;

/// A graph while it is merged, with facts of its data regions that no join computes anew.
pub(crate) struct Merging<'a, 'b> {
    /// The firmware.
    pub(crate) program: &'a Program<'b>,
    /// The graph after the joins that were made.
    pub(crate) graph: Graph,
    /// What is known of each data region that there ever was.
    pub(crate) known: Vec<Known>,
    /// For each of these what its joins with the earlier ones and itself cost.
    pub(crate) costs: Vec<ListVec<u64>>,
    /// The number of each data region of the graph among these.
    pub(crate) numbers: Vec<usize>,
}

impl Drop for Merging<'_, '_> {
    fn drop(self) {
        let Merging {
            program: _,
            graph: _,
            known: _,
            costs: _,
            numbers: _,
        } = self;
    }
}

/// What the joins of a known region with the earlier ones and itself cost.
fn row(alloc: Global, known: &[Known], number: usize) -> Result<Vec<u64>, AllocError>
    requires { number < length known.now }
    ensures { IfOk result (λ row. row.items ≡ row_of known.now number) }
{
    let mut row = Vec::new(alloc);
    for i in 0..number + 1 {
        let Some(cost) = exposure(&known[i], &known[number]) else {
            return Err(AllocError);
        };
        row.push(cost)?;
    }
    Ok(row)
}

/// Comes to know a region. The answer is the number under which it is known.
fn learn(
    alloc: Global,
    program: &Program,
    known: &mut Vec<Known>,
    costs: &mut Vec<ListVec<u64>>,
    region: &DataRegion,
) -> Result<usize, AllocError>
    requires { AreCosts known.old.items costs.old.items }
    ensures costs { OnOk result (AreCosts known.new.items costs.new.items) }
    ensures number { IfOk result (λ number. number ≡ length known.old.items) }
    ensures known { OnOk result ((k : Known) × IsKnown (program_of program.now) region.now k × (known.new.items ≡ known.old.items ++ k ∷ [])) }
{
    let number = known.len();
    known.push(known_of(alloc, program, region)?)?;
    let row = row(alloc, known, number)?;
    costs.push(ListVec::new(row))?;
    Ok(number)
}

/// The region of two: the globals, the writers and the readers of both.
fn joined_region(
    alloc: Global,
    one: &DataRegion,
    other: &DataRegion,
) -> Result<DataRegion, AllocError>
    ensures { IfOk result (λ region. region ≡ merging.joined_region one.now other.now) }
{
    let globals = union_of(alloc, one.globals.as_slice(), other.globals.as_slice())?;
    let writers = union_of(alloc, one.writers.as_slice(), other.writers.as_slice())?;
    let readers = union_of(alloc, one.readers.as_slice(), other.readers.as_slice())?;
    Ok(DataRegion {
        globals: ListVec::new(globals),
        writers: ListVec::new(writers),
        readers: ListVec::new(readers),
    })
}

/// A graph before its first join.
///
/// # Errors
///
/// There is no memory for it, or a cost has more than 64 bits.
pub(crate) fn merging_of<'a, 'b>(
    alloc: Global,
    program: &'a Program<'b>,
    graph: Graph,
) -> Result<Merging<'a, 'b>, AllocError>
    ensures merging { IfOk result (λ m. IsMerging m) }
    ensures graph { IfOk result (λ m. m.graph ≡ graph) }
    ensures program { IfOk result (λ m. m.program.now ≡ program.now) }
{
    let mut known = Vec::new(alloc);
    let mut costs = Vec::new(alloc);
    let mut numbers = Vec::new(alloc);
    let regions = graph.regions.as_slice();
    for i in 0..regions.len() {
        let number = learn(alloc, program, &mut known, &mut costs, &regions[i])?;
        numbers.push(number)?;
    }
    Ok(Merging {
        program,
        graph,
        known,
        costs,
        numbers,
    })
}

impl Merging<'_, '_> {
    /// The graph after the joins that were made.
    pub(crate) fn into_graph(self) -> Graph
        ensures { result ≡ self.entry.graph }
    {
        let Merging {
            program: _,
            graph,
            known: _,
            costs: _,
            numbers: _,
        } = self;
        graph
    }

    /// What the join of two data regions costs.
    fn cost(&self, first: usize, second: usize) -> u64
        requires merging { IsMerging self.now }
        requires first { first < length self.now.graph.regions }
        requires second { second < length self.now.graph.regions }
        ensures { result ≡ merging.region_cost (program_of self.now.program.now) self.now.graph.regions (let q : Pair = record { first = first; second = second } in q) }
    {
        let one = self.numbers[first];
        let other = self.numbers[second];
        let row = self.costs[one.max(other)].as_slice();
        row[one.min(other)]
    }

    /// Whether a compartment uses a data region.
    fn is_used(&self, compartment: u32, place: usize) -> bool
        requires merging { IsMerging self.now }
        requires place { place < length self.now.graph.regions }
        ensures { result ≡ regions.is_user compartment (regions.region_at self.now.graph.regions place) }
    {
        let known = &self.known[self.numbers[place]];
        is_flagged(known.uses.as_slice(), compartment)
    }

    /// The data regions of a compartment, by their places.
    fn regions_used(&self, alloc: Global, compartment: u32) -> Result<Vec<usize>, AllocError>
        requires { IsMerging self.now }
        ensures { IfOk result (λ used. used.items ≡ regions.regions_used self.now.graph.regions compartment) }
    {
        let mut used = Vec::new(alloc);
        for place in 0..self.graph.regions.len() {
            if self.is_used(compartment, place) {
                used.push(place)?;
            }
        }
        Ok(used)
    }

    /// The covers of a compartment.
    fn covers(&self, compartment: u32) -> &[Cover]
        ensures { result.now ≡ merging.covers_at self.now.graph compartment }
    {
        let all = self.graph.covers.as_slice();
        let place = compartment as usize;
        if place < all.len() {
            all[place].as_slice()
        } else {
            &[]
        }
    }

    /// Whether a compartment has more data regions and covers than there are slots.
    fn is_too_rich(&self, alloc: Global, slots: u32, compartment: u32) -> Result<bool, AllocError>
        requires { IsMerging self.now }
        ensures { IfOk result (λ rich. rich ≡ merging.is_too_rich slots self.now.graph compartment) }
    {
        let used = self.regions_used(alloc, compartment)?;
        Ok((slots as usize) < used.len() + self.covers(compartment).len())
    }

    /// The lowest-numbered compartment that has more data regions and covers than there are slots, if there is one.
    fn first_too_rich(&self, alloc: Global, slots: u32) -> Result<Option<u32>, AllocError>
        requires { IsMerging self.now }
        ensures { IfOk result (λ first. first ≡ merging.first_too_rich slots self.now.graph) }
    {
        for compartment in 0..self.graph.groups.count {
            let rich = self.is_too_rich(alloc, slots, compartment)?;
            if rich {
                return Ok(Some(compartment));
            }
        }
        Ok(None)
    }

    /// The cheaper of a choice and the joins of a data region with later ones.
    fn with_later(&self, best: Option<Choice>, first: usize, later: &[usize]) -> Option<Choice>
        requires merging { IsMerging self.now }
        requires first { first < length self.now.graph.regions }
        requires later { All (λ second. second < length self.now.graph.regions) later.now }
        ensures { result ≡ cheapest_from best (map (priced (merging.region_cost (program_of self.now.program.now) self.now.graph.regions)) (pairs_with first later.now)) }
    {
        let mut best = best;
        for i in 0..later.len() {
            let second = later[i];
            let cost = self.cost(first, second);
            best = cheaper(
                best,
                Choice {
                    first,
                    second,
                    cost,
                },
            );
        }
        best
    }

    /// The two of a compartment's data regions whose join adds least exposure, the earlier pair where several add as little,
    /// if it has two.
    fn region_pair(&self, alloc: Global, compartment: u32) -> Result<Option<Choice>, AllocError>
        requires { IsMerging self.now }
        ensures { IfOk result (λ choice. option_map pair_of choice ≡ merging.region_pair (program_of self.now.program.now) self.now.graph.regions compartment) }
    {
        let used = self.regions_used(alloc, compartment)?;
        let places = used.as_slice();
        let mut best = None;
        for i in 0..places.len() {
            best = self.with_later(best, places[i], &places[i + 1..]);
        }
        Ok(best)
    }

    /// Joins two data regions: the joined one has the lower place.
    fn join_regions(&mut self, alloc: Global, first: usize, second: usize) -> Result<(), AllocError>
        requires merging { IsMerging self.old }
        requires first { first < length self.old.graph.regions }
        requires second { second < length self.old.graph.regions }
        ensures merging { OnOk result (IsMerging self.new) }
        ensures program { self.new.program.now ≡ self.old.program.now }
        ensures graph { OnOk result (self.new.graph ≡ merging.with_joined_regions self.old.graph (let q : Pair = record { first = first; second = second } in q)) }
    {
        let regions = self.graph.regions.as_slice();
        let region = joined_region(alloc, &regions[first], &regions[second])?;
        let number = learn(
            alloc,
            self.program,
            &mut self.known,
            &mut self.costs,
            &region,
        )?;
        let mut regions = replace(
            &mut self.graph.regions,
            ListVec::new(Vec::new(alloc)),
        ).into_vec();
        regions[first] = region;
        regions.remove(second);
        self.graph.regions = ListVec::new(regions);
        self.numbers[first] = number;
        self.numbers.remove(second);
        Ok(())
    }

    /// Joins two covers of a compartment, if it has two.
    fn join_covers(&mut self, alloc: Global, compartment: u32) -> Result<bool, AllocError>
        requires { IsMerging self.old }
        ensures merging { OnOk result (IsMerging self.new) }
        ensures program { self.new.program.now ≡ self.old.program.now }
        ensures graph { IfOk result (λ joined. CameTo joined (option_map (merging.with_joined_covers self.old.graph compartment) (merging.cover_pair (merging.covers_at self.old.graph compartment))) self.old.graph self.new.graph) }
    {
        let covers = self.covers(compartment);
        let Some(choice) = cover_pair(covers) else {
            return Ok(false);
        };
        let Some(cover) = join_of(&covers[choice.first], &covers[choice.second]) else {
            return Err(AllocError);
        };
        let covers = with_cover(alloc, covers, cover)?;
        let mut all = replace(&mut self.graph.covers, ListVec::new(Vec::new(alloc))).into_vec();
        all[compartment as usize] = ListVec::new(covers);
        self.graph.covers = ListVec::new(all);
        Ok(true)
    }

    /// Makes the next join, for the lowest-numbered compartment that has more data regions and covers than there are slots:
    /// of two data regions where it has two, else of two covers. The answer tells whether there was one.
    ///
    /// # Errors
    ///
    /// There is no memory for it, a cost has more than 64 bits, or a joined cover more than 32.
    pub(crate) fn join(&mut self, alloc: Global, slots: u32) -> Result<bool, AllocError>
        requires { IsMerging self.old }
        ensures merging { OnOk result (IsMerging self.new) }
        ensures program { self.new.program.now ≡ self.old.program.now }
        ensures graph { IfOk result (λ joined. CameTo joined (merging.next (program_of self.old.program.now) slots self.old.graph) self.old.graph self.new.graph) }
    {
        let Some(compartment) = self.first_too_rich(alloc, slots)? else {
            return Ok(false);
        };
        if let Some(choice) = self.region_pair(alloc, compartment)? {
            self.join_regions(alloc, choice.first, choice.second)?;
            return Ok(true);
        }
        self.join_covers(alloc, compartment)
    }
}
