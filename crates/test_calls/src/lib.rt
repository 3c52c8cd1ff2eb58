//! Calls of the crates below the program that no command shows, by cases: arguments in, and what has to be answered. No
//! crate stands on this one.
#![tactic(auto)]

#[cfg(test)]
mod buses;
#[cfg(test)]
mod files;
#[cfg(test)]
mod instructions;
#[cfg(test)]
mod machines;
#[cfg(test)]
mod plain;
#[cfg(test)]
mod protection;
#[cfg(test)]
mod tapes;
