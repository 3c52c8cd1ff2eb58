//! The program: what `aces_cli::aces` does, over the files and streams of the system.
#![tactic(auto)]

use aces_cli::{WordsRefusal, aces, refuse_words};
use base_outside::{HostFiles, HostSink};
use std::io::ErrorKind;
use std::process::ExitCode;
use std::{env, io};

/// The exit status where the system refuses the words, and neither for want of memory nor for what they are.
const NO_WORDS: u8 = 9;

fn main(rt: HostRuntime) -> ExitCode {
    let mut err = HostSink::new(rt.stderr());
    let status = match words(&rt) {
        Ok(words) => {
            let mut files = HostFiles::new(&rt);
            let mut out = HostSink::new(rt.stdout());
            aces(rt.alloc(), words.as_slice(), &mut files, &mut out, &mut err)
        }
        Err(error) => match error.kind() {
            ErrorKind::OutOfMemory => refuse_words(WordsRefusal::NoMemory, &mut err),
            ErrorKind::InvalidData => refuse_words(WordsRefusal::NotText, &mut err),
            _ => NO_WORDS,
        },
    };
    ExitCode::from(status)
}

/// The words behind the program's name.
fn words(rt: &HostRuntime) -> io::Result<Vec<String>> {
    let words = env::args(rt)?.skip(1).collect(rt.alloc())?;
    Ok(words)
}
