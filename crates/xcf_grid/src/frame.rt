// Where a tile stands among the tiles of its drawable.
ghost use Rattle.std.specs.Prelude.{◌≡◌, ◌≤◌};
ghost use Rattle.xcf_numbers.specs.Limit.{side_limit};
ghost use Rattle.xcf_grid.specs.Parts.{frame_of};

use crate::{side_of, tiles_along};
use xcf_numbers::limit::TILE_SIDE;
use xcf_table::Row;

// A tile's side, as wide as a place.
pub(crate) const SIDE: usize = TILE_SIDE as usize;

// A tile's column and line among the tiles, and its sides.
#[derive(Clone, Copy)]
pub struct Frame {
    pub column: u32,
    pub line: u32,
    pub width: u32,
    pub height: u32,
}

impl Frame {
    // The frame of tile t.
    pub fn of(row: Row, t: u32) -> Frame
        requires { (1 ≤ row.width) × (row.width ≤ side_limit) }
        ensures { result ≡ frame_of row t }
    {
        let across = tiles_along(row.width) as u32;
        let column = t % across;
        let line = t / across;
        Frame {
            column,
            line,
            width: side_of(row.width, column),
            height: side_of(row.height, line),
        }
    }
}
