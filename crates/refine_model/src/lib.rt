//! What it means that an image refines a firmware.
#![tactic(auto)]
