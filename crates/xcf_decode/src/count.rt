// The marked tiles of a drawable, counted with the pixels of one tile at a time.
ghost use Rattle.std.specs.Prelude.{◌≡◌, length};
ghost use Rattle.xcf_numbers.specs.Limit.{tile_size};
ghost use Rattle.xcf_window.specs.Parts.{IsReady};
ghost use Rattle.xcf_decode.specs.Parts.{marked_of};

use xcf_grid::frame::Frame;
use xcf_numbers::limit::TILE_SIZE;
use xcf_window::drawable::Drawable;

fn count_tiles(drawable: &Drawable<'_>, scratch: &mut [u8]) -> u64
    requires { IsReady drawable.now × (length scratch.old ≡ tile_size) }
    ensures { result ≡ marked_of drawable.now }
{
    let row = drawable.row;
    let mut marked: u64 = 0;
    for t in 0..row.count {
        let mark = drawable.decode(t, Frame::of(row, t), scratch);
        if mark != 0 {
            marked += 1;
        }
    }
    marked
}

pub(crate) fn count_row(drawable: &Drawable<'_>) -> u64
    requires { IsReady drawable.now }
    ensures { result ≡ marked_of drawable.now }
{
    let mut scratch = [0u8; TILE_SIZE];
    count_tiles(drawable, &mut scratch)
}
