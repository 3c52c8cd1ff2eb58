//! Makes analyses of firmwares and boards that are written in files of cases, and tells which differ from what is wanted.
#![tactic(auto)]

mod analysis;
mod boards;
mod function_needs;
mod graphs;
mod sets;

use analysis::Analysis;
use anyhow::Result;
use std::process::ExitCode;
use test_files::run_files;

fn main(rt: HostRuntime) -> Result<ExitCode> {
    run_files(&rt, rt.alloc(), &Analysis)
}
