//! Recorded device input.

ghost use Rattle.std.specs.Prelude.{◌≡◌, ◌==◌, position, ◌-◌, ◌^◌, ◌<◌, [], ◌∷◌, ◌++◌, length, replicate, slice_get, IfOk, OnOk, OnErr, IfNone};
ghost use Rattle.std.specs.List.{list_any};
ghost use Rattle.machine_devices.specs.Input as input;
ghost use Rattle.machine_devices.specs.Queues as queues;
ghost use Rattle.machine_devices.specs.Tape as tapes;
ghost use Rattle.machine_devices.specs.declared.tape.TapeFault.TheVariants.{NoMemory};

use crate::image::Window;
use crate::line::{Line, read_line, without_return};
use std::alloc::{AllocError, Global};
use std::collections::VecDeque;
use std::marker::Model;
use thiserror::Error;

/// The first line of a tape that fails. Lines count from 1.
#[derive(Debug, Drop, Error, PartialEq, Eq)]
pub enum TapeFault {
    /// Memory ran out.
    #[error("out of memory")]
    NoMemory,
    /// The line is neither blank nor a name and a number.
    #[error("bad line")]
    BadLine {
        /// Its number.
        line: u32,
    },
    /// The line's name is no peripheral's.
    #[error("unknown peripheral")]
    UnknownPeripheral {
        /// Its number.
        line: u32,
    },
}

impl From<AllocError> for TapeFault {
    ghost from_gives = { λ _ fault. fault ≡ NoMemory };

    fn from(_error: AllocError) -> TapeFault {
        TapeFault::NoMemory
    }
}

/// The recorded words that a window has left.
#[derive(Drop)]
struct Queue {
    words: VecDeque<u32>,
}

impl Model for Queue {
    ghost use Rattle.std.specs.Prelude.{List, ℕ};

    ghost Value = { List ℕ };

    ghost view = { λ q. q.words.items };
}

impl Queue {
    fn new(alloc: Global) -> Queue
        ensures { result ≡ [] }
    {
        Queue {
            words: VecDeque::new(alloc),
        }
    }

    fn push(&mut self, word: u32) -> Result<(), AllocError>
        ensures ok { OnOk result (self.new ≡ self.old ++ word ∷ []) }
        ensures err { OnErr result (self.new ≡ self.old) }
    {
        self.words.push_back(word)?;
        Ok(())
    }

    fn take(&mut self) -> Option<u32>
        ensures word { result ≡ slice_get self.old 0 }
        ensures rest { self.new ≡ input.without_first self.old }
    {
        self.words.pop_front()
    }
}

/// Recorded device input: the words that each window has left, in the order of the windows.
pub struct Tape {
    queues: Vec<Queue>,
}

impl Drop for Tape {
    fn drop(self) {
        let Tape { queues: _ } = self;
    }
}

impl Model for Tape {
    ghost use Rattle.std.specs.Prelude.{List, ℕ};

    ghost Value = { List (List ℕ) };

    ghost view = { λ t. t.queues.items };
}

impl Tape {
    /// A tape of this many queues without words.
    pub fn empty(alloc: Global, queues: u32) -> Result<Tape, AllocError>
        ensures { IfOk result (λ tape. tape ≡ replicate queues []) }
    {
        let mut list = Vec::new(alloc);
        for _queue in 0..queues {
            list.push(Queue::new(alloc))?;
        }
        Ok(Tape { queues: list })
    }

    /// The number of queues.
    pub fn queue_count(&self) -> usize
        ensures { result ≡ length self.now }
    {
        self.queues.len()
    }

    /// Puts a word last in a queue. After an error the tape is as before.
    pub fn push(&mut self, queue: u32, word: u32) -> Result<(), AllocError>
        requires { queue < length self.old }
        ensures ok { OnOk result (self.new ≡ queues.pushed self.old queue word) }
        ensures err { OnErr result (self.new ≡ self.old) }
    {
        let queue = &mut self.queues[queue as usize];
        queue.push(word)
    }

    /// Takes the first word of a queue, and answers `None` exactly where that queue is empty. Takes no
    /// memory, and constant time.
    pub fn take(&mut self, queue: u32) -> Option<u32>
        requires { queue < length self.old }
        ensures word { result ≡ slice_get (input.queue self.old queue) 0 }
        ensures rest { self.new ≡ input.taken self.old queue }
        ensures empty { IfNone result (self.new ≡ self.old) }
    {
        let queue = &mut self.queues[queue as usize];
        queue.take()
    }

    /// The tape of a text, with a queue of words per window, found by the window's name. A line is blank, or has the
    /// name of a window and a number; what stands from `#` on in a line is a comment.
    ///
    /// # Errors
    ///
    /// The first line that is neither, or whose name no window has.
    #[tactic(auto, using(crate::proofs::Reading::reading_rules))]
    pub fn read(alloc: Global, text: &[u8], names: &[Window]) -> Result<Tape, TapeFault>
        requires { length text.now < 2 ^ 32 - 1 }
        ensures { tapes.Reads text.now names.now result }
    {
        let mut tape = Tape::for_windows(alloc, names)?;
        let mut rest = text;
        let mut line = 1u32;
        while let Some(end) = line_feed(rest) {
            let (front, behind) = rest.split_at(end);
            tape.read_line(without_return(front), line, names)?;
            let (_, behind) = behind.split_at(1);
            rest = behind;
            line += 1;
        }
        tape.read_line(rest, line, names)?;
        Ok(tape)
    }

    fn for_windows(alloc: Global, names: &[Window]) -> Result<Tape, AllocError>
        ensures { IfOk result (λ tape. tape ≡ queues.all_empty names.now) }
    {
        let mut list = Vec::new(alloc);
        for _window in names {
            list.push(Queue::new(alloc))?;
        }
        Ok(Tape { queues: list })
    }

    #[tactic(auto, using(crate::proofs::Rows::blank_rules))]
    fn read_line(&mut self, line: &[u8], number: u32, names: &[Window]) -> Result<(), TapeFault>
        requires { length self.old ≡ length names.now }
        ensures { queues.Puts (tapes.row_of line.now) number names.now self.old self.new result }
    {
        match read_line(line) {
            Line::Blank => Ok(()),
            Line::Bad => Err(TapeFault::BadLine { line: number }),
            Line::Entry { name, word } => self.put(name, word, number, names),
        }
    }

    fn put(
        &mut self,
        name: &[u8],
        word: u32,
        number: u32,
        names: &[Window],
    ) -> Result<(), TapeFault>
        requires { length self.old ≡ length names.now }
        ensures { queues.Puts (tapes.Entry name.now word) number names.now self.old self.new result }
    {
        if !is_named(name, names) {
            return Err(TapeFault::UnknownPeripheral { line: number });
        }
        self.put_everywhere(name, word, names)?;
        Ok(())
    }

    /// Puts a word last in the queue of each window of this name.
    #[tactic(auto, using(crate::proofs::Rows::put_rules))]
    fn put_everywhere(&mut self, name: &[u8], word: u32, names: &[Window]) -> Result<(), AllocError>
        requires { length self.old ≡ length names.now }
        ensures { OnOk result (self.new ≡ queues.with_row (tapes.Entry name.now word) names.now self.old) }
    {
        for (k, window) in names.iter().enumerate() {
            if name == window.name.as_slice() {
                let queue = &mut self.queues[k];
                queue.push(word)?;
            }
        }
        Ok(())
    }
}

/// Whether a window has the name.
fn is_named(name: &[u8], names: &[Window]) -> bool
    ensures { result ≡ list_any (tapes.is_named name.now) names.now }
{
    names.iter().any(|window| window.name.as_slice() == name)
}

/// Where the first line of a text ends.
fn line_feed(text: &[u8]) -> Option<usize>
    ensures { result ≡ position (λ b. b == 10) text.now }
{
    text.iter().position(|byte| *byte == b'\n')
}
