// Words and bytes, read from a file and stored into an output.
#![tactic(auto)]

pub mod output;
pub mod pointer;
pub mod rising;
pub mod word;
