//! Makes calls of the compiler that no command makes, and calls of the program, on cases that are written in files, and tells which
//! differ from what is wanted.
#![tactic(auto)]

mod alike;
mod calls;
mod cuts;
mod divided;
mod memory;

use anyhow::Result;
use calls::Calls;
use std::process::ExitCode;
use test_files::run_files;

fn main(rt: HostRuntime) -> Result<ExitCode> {
    run_files(&rt, rt.alloc(), &Calls)
}
