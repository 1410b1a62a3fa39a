// The tiles of a drawable, decoded into its pixels and marks.
ghost use Rattle.std.specs.Prelude.{◌≡◌, ◌*◌, length};
ghost use Rattle.xcf_numbers.specs.Limit.{tile_size};
ghost use Rattle.xcf_window.specs.Parts.{IsReady};
ghost use Rattle.xcf_decode.specs.Parts.{decoding_of};

use xcf_grid::frame::Frame;
use xcf_grid::put::put_tile;
use xcf_numbers::limit::TILE_SIZE;
use xcf_window::drawable::Drawable;

// Every tile of the drawable: its pixels and its mark; and how many marks are not zero. The marks are set by their index: the
// library says nothing of what a slice holds after a loop over `iter_mut()` zipped with another.
fn decode_tiles(
    drawable: &Drawable<'_>,
    pixels: &mut [u8],
    marks: &mut [u8],
    scratch: &mut [u8],
) -> u64
    requires ready { IsReady drawable.now }
    requires pixels_len { (length pixels.old ≡ drawable.now.row.width * drawable.now.row.height * drawable.now.row.depth) × (length marks.old ≡ drawable.now.row.count) × (length scratch.old ≡ tile_size) }
    ensures value { result ≡ (decoding_of drawable.now).answer.marked }
    ensures pixels_after { pixels.new ≡ (decoding_of drawable.now).pixels }
    ensures marks_after { marks.new ≡ (decoding_of drawable.now).marks }
{
    let row = drawable.row;
    let mut marked: u64 = 0;
    for t in 0..row.count {
        let frame = Frame::of(row, t);
        let mark = drawable.decode(t, frame, scratch);
        put_tile(row, frame, scratch, pixels);
        marks[t as usize] = mark;
        if mark != 0 {
            marked += 1;
        }
    }
    marked
}

pub(crate) fn decode_row(drawable: &Drawable<'_>, pixels: &mut [u8], marks: &mut [u8]) -> u64
    requires ready { IsReady drawable.now }
    requires pixels_len { (length pixels.old ≡ drawable.now.row.width * drawable.now.row.height * drawable.now.row.depth) × (length marks.old ≡ drawable.now.row.count) }
    ensures value { result ≡ (decoding_of drawable.now).answer.marked }
    ensures pixels_after { pixels.new ≡ (decoding_of drawable.now).pixels }
    ensures marks_after { marks.new ≡ (decoding_of drawable.now).marks }
{
    let mut scratch = [0u8; TILE_SIZE];
    decode_tiles(drawable, pixels, marks, &mut scratch)
}
