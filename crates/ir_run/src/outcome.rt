//! What a step answers.

use base_events::event::Event;
use thiserror::Error;

/// A fault of the source.
#[derive(Clone, Copy, Debug, Error)]
pub enum FaultKind {
    /// A pointer or a function was null.
    #[error("null")]
    Null,
    /// The pointer was to a local whose function has returned.
    #[error("dead")]
    Dead,
    /// There was no cell of the type at the offset.
    #[error("no-cell")]
    NoCell,
    /// The store was to a constant.
    #[error("const")]
    Constant,
}

/// How a run ended.
#[derive(Clone, Copy)]
pub enum SourceEnd {
    /// `main` returned.
    Returned,
    /// A peripheral had no recorded word left.
    InputEnd,
    /// A fault.
    Fault(FaultKind),
}

/// What a step answers.
#[derive(Clone, Copy)]
pub enum SourceStep {
    /// It ran, and told nothing.
    Ran,
    /// It ran, and accessed a peripheral.
    Event(Event),
    /// The run has ended.
    Ended(SourceEnd),
}
