// A file read forward by a cursor: words, strings, property lists and lists of pointers.
#![tactic(auto)]

pub mod cursor;
pub mod pointers;
mod property;
