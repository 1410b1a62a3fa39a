// One stream's encoding: its segments found, measured and stored.
#![tactic(auto)]

pub mod measure;
pub mod put;
mod segment;
