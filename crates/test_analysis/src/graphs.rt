//! Graphs and limits as text.

use crate::function_needs::put_numbers;
use anyhow::Result;
use base_lists::ListVec;
use plan_model::graph::{Cover, DataRegion, Final, Graph};
use plan_model::groups::Groups;
use plan_model::limits::LimitKind;
use plan_model::needs::Needs;
use std::alloc::Global;

fn put_region(alloc: Global, text: &mut String, region: &DataRegion) -> Result<()> {
    put_numbers(alloc, text, "region", region.globals.as_slice())?;
    put_numbers(alloc, text, "writers", region.writers.as_slice())?;
    put_numbers(alloc, text, "readers", region.readers.as_slice())
}

fn put_covers(
    alloc: Global,
    text: &mut String,
    compartment: usize,
    covers: &[Cover],
) -> Result<()> {
    for cover in covers {
        let Cover { base, size } = *cover;
        let line = format!(in alloc; "cover {compartment} {base:#010x} {size}\n")?;
        text.push_str(line.as_str())?;
    }
    Ok(())
}

/// The parts of a graph, before its joins or behind them.
#[derive(Drop)]
pub(crate) struct GraphParts<'a> {
    groups: &'a [u32],
    regions: &'a [DataRegion],
    unwritten: &'a [u32],
    covers: &'a [ListVec<Cover>],
    masks: &'a [u32],
    reads: &'a [u32],
}

/// The parts of a graph before any join.
pub(crate) fn parts_of_first(graph: &Graph) -> GraphParts<'_> {
    GraphParts {
        groups: graph.groups.of.as_slice(),
        regions: graph.regions.as_slice(),
        unwritten: graph.unwritten.as_slice(),
        covers: graph.covers.as_slice(),
        masks: graph.masks.as_slice(),
        reads: graph.reads.as_slice(),
    }
}

/// The parts of a graph behind all joins.
pub(crate) fn parts_of_last(graph: &Final) -> GraphParts<'_> {
    GraphParts {
        groups: graph.groups.of.as_slice(),
        regions: graph.regions.as_slice(),
        unwritten: graph.unwritten.as_slice(),
        covers: graph.covers.as_slice(),
        masks: graph.masks.as_slice(),
        reads: graph.reads.as_slice(),
    }
}

/// Puts the compartments of functions, the data regions, the globals of none, the covers and the masks.
pub(crate) fn put_graph(alloc: Global, text: &mut String, graph: &GraphParts) -> Result<()> {
    put_numbers(alloc, text, "groups", graph.groups)?;
    for region in graph.regions {
        put_region(alloc, text, region)?;
    }
    put_numbers(alloc, text, "unwritten", graph.unwritten)?;
    for compartment in 0..graph.covers.len() {
        put_covers(
            alloc,
            text,
            compartment,
            graph.covers[compartment].as_slice(),
        )?;
    }
    put_numbers(alloc, text, "masks", graph.masks)?;
    put_numbers(alloc, text, "reads", graph.reads)
}

/// Puts the first limit that is passed, if there is one.
pub(crate) fn put_limit(
    alloc: Global,
    text: &mut String,
    needs: &Needs,
    groups: &Groups,
) -> Result<()> {
    let Some((kind, count)) = plan_limits::passed_limit(needs, groups) else {
        return Ok(());
    };
    let word = match kind {
        LimitKind::Compartments => "compartments",
        LimitKind::Lent => "lent",
        LimitKind::Sites => "sites",
        LimitKind::Targets => "targets",
    };
    let line = format!(in alloc; "{word} {count}\n")?;
    text.push_str(line.as_str())?;
    Ok(())
}
