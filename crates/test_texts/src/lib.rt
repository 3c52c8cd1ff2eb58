//! Calls on firmwares' texts that no command shows, by cases: arguments in, and what has to be answered. No crate stands on this one.
#![tactic(auto)]

#[cfg(test)]
mod firmwares;
