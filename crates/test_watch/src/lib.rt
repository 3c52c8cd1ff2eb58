//! Watched runs of a small machine: where they pause, the events that they give, and the steps that they have taken. No crate
//! stands on this one.
#![tactic(auto)]

#[cfg(test)]
mod pauses;
