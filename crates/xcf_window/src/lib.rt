// One tile of a row: whether the row is usable, the tile's window, its pixels and its mark.
#![tactic(auto)]

pub mod drawable;
mod tile;
