// One tile of a drawable, encoded.
ghost use Rattle.std.specs.Prelude.{◌≡◌, ◌<◌, ◌≤◌, length};
ghost use Rattle.xcf_store.specs.Put.{Put};
ghost use Rattle.xcf_drawable.specs.Drawable.{encoding_of};

use crate::Drawing;
use xcf_encode::encode_tile;
use xcf_grid::frame::Frame;
use xcf_grid::take::take_tile;
use xcf_numbers::limit::TILE_SIZE;

impl Drawing<'_> {
    // The encoding of tile t at the output's start, and its length; the tile is room for its pixels.
    pub(crate) fn encode(&self, t: u32, tile: &mut [u8; TILE_SIZE], output: &mut [u8]) -> usize
        requires tile { t < self.now.structure.row.count }
        requires pixels_in_bounds { length (encoding_of self.now.structure.row t self.now.pixels.now) ≤ length output.old }
        ensures { Put output.old 0 (encoding_of self.now.structure.row t self.now.pixels.now) result output.new }
    {
        let row = self.structure.row;
        let Frame { width, height, .. } = Frame::of(row, t);
        let size = take_tile(row, t, width, height, self.pixels, tile);
        let answer = encode_tile(&tile[..size], width, height, row.depth, output);
        answer.length as usize
    }
}
