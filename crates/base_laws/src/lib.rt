//! General lemmas of tests, options and lists, over no crate's own definitions.
#![tactic(auto)]
