//! The monitor's handlers by cases: small programs on a board with the monitor's page, stepped until a handler halts. No crate
//! stands on this one.
#![tactic(auto)]

#[cfg(test)]
mod board;
#[cfg(test)]
mod halts;
#[cfg(test)]
mod loans;
#[cfg(test)]
mod steps;
