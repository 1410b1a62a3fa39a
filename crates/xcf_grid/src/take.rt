// A tile's lines, taken from its drawable's pixels.
ghost use Rattle.std.specs.Prelude.{◌≡◌, length};
ghost use Rattle.std.proofs.lemmas.List.Edits.{sets};
ghost use Rattle.xcf_numbers.specs.Limit.{tile_size};
ghost use Rattle.xcf_grid.specs.Grid.{tile_width, tile_height};
ghost use Rattle.xcf_grid.specs.Pixels.{shown};
ghost use Rattle.xcf_store.specs.Put.{Put};
ghost use Rattle.xcf_grid.specs.Parts.{lines, LinesFit};
ghost use Rattle.xcf_grid.specs.Drawn.{Tiled};

use crate::frame::SIDE;
use crate::tiles_along;
use xcf_table::Row;

// n lines of the pixels, `line` bytes each, from `start` on and `stride` apart, put one behind the other.
fn take_lines(pixels: &[u8], start: usize, stride: usize, line: usize, n: u32, tile: &mut [u8])
    requires { LinesFit pixels.now start stride line n tile.old }
    ensures { tile.new ≡ sets tile.old 0 (lines pixels.now start stride line n) }
{
    for j in 0..n {
        let from = start + stride * j as usize;
        let to = line * j as usize;
        tile[to..to + line].copy_from_slice(&pixels[from..from + line]);
    }
}

// The pixels of tile t, whose sides these are, at the tile's start; and their number.
pub fn take_tile(row: Row, t: u32, width: u32, height: u32, pixels: &[u8], tile: &mut [u8]) -> usize
    requires tiled { Tiled row t pixels.now × (length tile.old ≡ tile_size) }
    requires width_value { (width ≡ tile_width row.width t) × (height ≡ tile_height row.width row.height t) }
    ensures { Put tile.old 0 (shown row.width row.height row.depth t pixels.now) result tile.new }
{
    let depth = row.depth as usize;
    let across = tiles_along(row.width) as u32;
    let first = row.width as usize * (t / across) as usize + (t % across) as usize;
    let start = depth * (SIDE * first);
    let stride = depth * row.width as usize;
    let line = depth * width as usize;
    take_lines(pixels, start, stride, line, height, tile);
    line * height as usize
}
