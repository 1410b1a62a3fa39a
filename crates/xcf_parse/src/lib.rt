// Every structure of a file, read by the cursor.
#![tactic(auto)]

pub mod drawable;
pub mod header;
pub mod hierarchy;
pub mod image;
