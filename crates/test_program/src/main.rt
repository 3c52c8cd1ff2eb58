//! Calls the program on cases that are written in files, over files and sinks in memory, and tells which differ.
#![tactic(auto)]

use aces_cli::aces;
use anyhow::Result;
use base_outside::{MemFiles, MemSink};
use std::alloc::Global;
use std::process::ExitCode;
use test_files::{Program, run_files};

/// The program `aces`.
struct Aces;

impl Program for Aces {
    fn call(
        &self,
        alloc: Global,
        words: &[String],
        files: &mut MemFiles,
        out: &mut MemSink,
        err: &mut MemSink,
    ) -> u8 {
        aces(alloc, words, files, out, err)
    }
}

fn main(rt: HostRuntime) -> Result<ExitCode> {
    run_files(&rt, rt.alloc(), &Aces)
}
