// The tiles of a drawable.
#![tactic(auto)]

pub mod frame;
pub mod put;
pub mod take;

ghost use Rattle.std.specs.Prelude.{◌≡◌, ◌≤◌};
ghost use Rattle.xcf_grid.specs.Grid.{tiles_along, side_of, tile_count, along_limit};

use xcf_numbers::limit::TILE_SIDE;

// A tile's side, as wide as a count of pixels.
const SIDE: u64 = TILE_SIDE as u64;

// How many tiles a side takes: at most 2^26.
pub fn tiles_along(side: u32) -> u64
    ensures { (result ≡ tiles_along side) × (result ≤ along_limit) }
{
    u64::from(side).div_ceil(SIDE)
}

// How many tiles a drawable of these sides has.
pub fn tile_count(width: u32, height: u32) -> u64
    ensures { result ≡ tile_count width height }
{
    tiles_along(width) * tiles_along(height)
}

// How much of a side its tile i takes.
pub fn side_of(side: u32, i: u32) -> u32
    ensures { result ≡ side_of side i }
{
    let start = SIDE * u64::from(i);
    let left = u64::from(side).saturating_sub(start);
    left.min(SIDE) as u32
}
