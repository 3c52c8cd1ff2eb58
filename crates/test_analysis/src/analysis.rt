//! The program that the cases call: the first word says which analysis, the second of which file.

ghost use Rattle.std.specs.Prelude.{◌≡◌, length};

use crate::boards::board_line;
use crate::function_needs::put_needs;
use crate::graphs::{GraphParts, parts_of_first, parts_of_last, put_graph, put_limit};
use crate::sets::put_sets;
use anyhow::{Result, bail};
use base_outside::{MemFiles, MemSink, Sink, read_whole};
use ir_check::check;
use ir_model::checked::Checked;
use ir_model::text_limits::TEXT_LIMIT;
use ir_program::program::Program;
use ir_resolve::resolving::resolve;
use need_points_to::solve;
use need_sets::PointsTo;
use plan_firmwares::analyse;
use plan_graph::initial::initial;
use plan_graph::merge::merge;
use plan_model::Policy;
use plan_model::groups::Groups;
use plan_model::needs::Needs;
use std::alloc::Global;
use test_files::Program as Called;

/// The analyses.
pub(crate) struct Analysis;

impl Called for Analysis {
    fn call(
        &self,
        alloc: Global,
        words: &[String],
        files: &mut MemFiles,
        out: &mut MemSink,
        _err: &mut MemSink,
    ) -> u8 {
        let Ok(text) = answer(alloc, words, files) else {
            return 1;
        };
        match out.put(text.as_bytes()) {
            Ok(()) => 0,
            Err(_) => 5,
        }
    }
}

/// What the words ask for.
fn answer(alloc: Global, words: &[String], files: &mut MemFiles) -> Result<String> {
    if words.len() != 5 {
        bail!("not five words");
    }
    let Ok(bytes) = read_whole(alloc, files, words[1].as_str(), u64::from(TEXT_LIMIT)) else {
        bail!("not read");
    };
    if words[0].as_str() == "board" {
        return board_line(alloc, bytes.as_slice());
    }
    let Ok(firmware) = ir_reader::read(alloc, bytes.as_slice()) else {
        bail!("no firmware");
    };
    let Ok(checked) = check(alloc, firmware) else {
        bail!("not typed");
    };
    analysis_text(alloc, &checked, words)
}

/// The policy of a word; that of the files where it is none.
fn policy_of(word: &str) -> Policy {
    match word {
        "optimized" => Policy::Optimized,
        "peripheral" => Policy::Peripheral,
        _ => Policy::Filename,
    }
}

/// The text of an analysis of a firmware: which, of which file, under which policy, on which board, in how many slots.
fn analysis_text(alloc: Global, firmware: &Checked, words: &[String]) -> Result<String>
    requires { length words.now ≡ 5 }
{
    if words[0].as_str() == "sets" {
        return sets_text(alloc, firmware);
    }
    let closed = words[3].as_str() == "closed";
    let made = analyse(alloc, firmware, policy_of(words[2].as_str()), closed)?;
    let (program, needs, groups) = made.into_parts();
    by_parts(alloc, &program, &needs, groups, words)
}

/// The same of what a firmware was analysed to.
fn by_parts(
    alloc: Global,
    program: &Program,
    needs: &Needs,
    groups: Groups,
    words: &[String],
) -> Result<String>
    requires words { length words.now ≡ 5 }
    requires each { length groups.of ≡ length needs.now.funcs }
{
    match words[0].as_str() {
        "needs" => needs_text(alloc, needs),
        "limit" => limit_text(alloc, needs, &groups),
        _ => by_graph(alloc, program, needs, groups, words[4].parse()?),
    }
}

fn sets_text(alloc: Global, firmware: &Checked) -> Result<String> {
    let program = resolve(alloc, firmware)?;
    solved_text(alloc, &program)
}

fn solved_text(alloc: Global, program: &Program) -> Result<String> {
    let sets = solve(alloc, program)?;
    text_of_sets(alloc, program, &sets)
}

fn text_of_sets(alloc: Global, program: &Program, sets: &PointsTo) -> Result<String> {
    let mut text = String::new(alloc);
    put_sets(alloc, &mut text, program, sets)?;
    Ok(text)
}

fn needs_text(alloc: Global, needs: &Needs) -> Result<String> {
    let mut text = String::new(alloc);
    put_needs(alloc, &mut text, needs)?;
    Ok(text)
}

fn limit_text(alloc: Global, needs: &Needs, groups: &Groups) -> Result<String> {
    let mut text = String::new(alloc);
    put_limit(alloc, &mut text, needs, groups)?;
    Ok(text)
}

fn graph_text(alloc: Global, graph: &GraphParts) -> Result<String> {
    let mut text = String::new(alloc);
    put_graph(alloc, &mut text, graph)?;
    Ok(text)
}

/// The text of the graph before any join, or where there are slots to fit, of the merged one.
fn by_graph(
    alloc: Global,
    program: &Program,
    needs: &Needs,
    groups: Groups,
    slots: u32,
) -> Result<String>
    requires { length groups.of ≡ length needs.now.funcs }
{
    let graph = initial(alloc, program, needs, groups)?;
    if slots < 2 {
        return graph_text(alloc, &parts_of_first(&graph));
    }
    let last = merge(alloc, program, graph, slots)?;
    graph_text(alloc, &parts_of_last(&last))
}
