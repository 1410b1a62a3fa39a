// A tile's lines, put at the tile's place in its drawable.
ghost use Rattle.std.specs.Prelude.{◌≡◌, length};
ghost use Rattle.xcf_grid.specs.Parts.{put_lines, put_frame, LineRoom, Placeable};

use crate::frame::{Frame, SIDE};
use xcf_table::Row;

// n lines of the tile, `line` bytes each, put into the pixels from `at` on, `stride` apart.
fn put_lines(tile: &[u8], line: usize, n: u32, pixels: &mut [u8], at: usize, stride: usize)
    requires { LineRoom pixels.old at stride tile.now 0 line n }
    ensures { pixels.new ≡ put_lines pixels.old at stride tile.now 0 line n }
{
    for j in 0..n {
        let from = line * j as usize;
        let to = at + stride * j as usize;
        pixels[to..to + line].copy_from_slice(&tile[from..from + line]);
    }
}

// The tile at its place in the row's pixels.
pub fn put_tile(row: Row, frame: Frame, tile: &[u8], pixels: &mut [u8])
    requires { Placeable row frame (length tile.now) (length pixels.old) }
    ensures { pixels.new ≡ put_frame pixels.old row.width row.depth frame tile.now }
{
    let depth = row.depth as usize;
    let width = row.width as usize;
    let first = SIDE * (width * frame.line as usize + frame.column as usize);
    let at = depth * first;
    let line = depth * frame.width as usize;
    let stride = depth * width;
    put_lines(tile, line, frame.height, pixels, at, stride);
}
