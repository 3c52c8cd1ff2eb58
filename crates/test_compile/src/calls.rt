//! What the cases call: the program, and calls beside its commands.

use crate::cuts::cuts;
use crate::divided::{divide, replace};
use crate::memory::memory;
use aces_cli::aces;
use anyhow::Error;
use base_outside::{MemFiles, MemSink, Sink};
use std::alloc::Global;
use test_files::{Program, patch, same};

/// The calls.
pub(crate) struct Calls;

impl Program for Calls {
    fn call(
        &self,
        alloc: Global,
        words: &[String],
        files: &mut MemFiles,
        out: &mut MemSink,
        err: &mut MemSink,
    ) -> u8 {
        let made = match words {
            [call, file, other] if call.as_str() == "same" => same(alloc, files, file, other),
            [call, file, place, code, name] if call.as_str() == "patch" => {
                patch(alloc, files, file, place, code, name)
            }
            [call, count, firmware, board, image] if call.as_str() == "divide" => {
                divide(alloc, files, count, firmware, board, image)
            }
            [call, firmware, board, compartment, code, image] if call.as_str() == "replace" => {
                replace(alloc, files, firmware, board, compartment, code, image)
            }
            [call, file, rest @ ..] if call.as_str() == "cuts" => {
                cuts(alloc, files, out, file, rest)
            }
            [call, image, steps, address, count] if call.as_str() == "memory" => {
                memory(alloc, files, out, image, steps, address, count)
            }
            _ => return aces(alloc, words, files, out, err),
        };
        match made {
            Ok(()) => 0,
            Err(error) => failure_status(alloc, err, &error),
        }
    }
}

/// Writes on `err` why a call was not carried out, and answers its status.
fn failure_status(alloc: Global, err: &mut MemSink, error: &Error) -> u8 {
    if let Ok(line) = format!(in alloc; "{error}\n") {
        let _ = err.put(line.as_bytes());
    }
    1
}
