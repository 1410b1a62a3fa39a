// The exported C interface.
#![tactic(auto)]

ghost use Rattle.std.specs.Prelude.{◌≡◌};
ghost use Rattle.xcf_numbers.specs.Limit.{file_limit};
ghost use Rattle.xcf_tile.specs.Answer.{Decoded};
ghost use Rattle.xcf_encode.specs.Answer.{TileEncoded};
ghost use Rattle.xcf_read.specs.Answer.{Read};
ghost use Rattle.xcf_decode.specs.Answer.{counting, DrawableDecoded};
ghost use Rattle.xcf_write.specs.Answer.{Written};
ghost use Rattle.xcf_listing.specs.Listing.{Lists};

use xcf_decode::DecodeAnswer;
use xcf_encode::EncodeAnswer;
use xcf_listing::ListAnswer;
use xcf_numbers::limit::FILE_LIMIT;
use xcf_read::ReadAnswer;
use xcf_table::canvas::Canvas;
use xcf_tile::TileAnswer;
use xcf_write::WriteAnswer;

// The structures of a file as rows of a table of 2,048 numbers.
#[unsafe(no_mangle)]
pub extern "C" fn xcf_read(file: &[u8], table: &mut [u32]) -> ReadAnswer
    ensures { Read file.now table.old result table.new }
{
    xcf_read::read(file, table)
}

// The pixels of the table's row `row`, and a mark for each of its tiles; tiles are plain for compression 0, encoded for 1, and a
// pointer has `size` bytes, 4 or 8.
#[unsafe(no_mangle)]
pub extern "C" fn xcf_decode(
    file: &[u8],
    table: &[u32],
    row: u32,
    compression: u32,
    size: u32,
    pixels: &mut [u8],
    marks: &mut [u8],
) -> DecodeAnswer
    ensures { DrawableDecoded size file.now table.now row compression pixels.old marks.old result pixels.new marks.new }
{
    xcf_decode::decode(file, table, row, compression, size as usize, pixels, marks)
}

// How many tiles of the table's row `row` are marked: the decoder's count, with no buffers lent.
#[unsafe(no_mangle)]
pub extern "C" fn xcf_count_marked(
    file: &[u8],
    table: &[u32],
    row: u32,
    compression: u32,
    size: u32,
) -> DecodeAnswer
    ensures { result ≡ counting size file.now table.now row compression }
{
    xcf_decode::count_marked(file, table, row, compression, size as usize)
}

// The tile of `width` by `height` pixels of `depth` bytes each in a window: plain for compression 0, encoded for 1.
#[unsafe(no_mangle)]
pub extern "C" fn xcf_decode_tile(
    window: &[u8],
    width: u32,
    height: u32,
    depth: u32,
    compression: u32,
    pixels: &mut [u8],
) -> TileAnswer
    ensures { Decoded window.now width height depth compression pixels.old result pixels.new }
{
    xcf_tile::decode_tile(window, width, height, depth, compression, pixels)
}

// The encoding of a tile of `width` by `height` pixels of `depth` bytes each, at the output's start.
#[unsafe(no_mangle)]
pub extern "C" fn xcf_encode_tile(
    pixels: &[u8],
    width: u32,
    height: u32,
    depth: u32,
    output: &mut [u8],
) -> EncodeAnswer
    ensures { TileEncoded pixels.now width height depth output.old result output.new }
{
    xcf_encode::encode_tile(pixels, width, height, depth, output)
}

// The file of the table's used rows, at the output's start: the bytes of their names stand in `names`, and their pixels follow each
// other in `pixels`, in row order.
#[unsafe(no_mangle)]
pub extern "C" fn xcf_write(
    width: u32,
    height: u32,
    base: u32,
    table: &[u32],
    names: &[u8],
    pixels: &[u8],
    output: &mut [u8],
) -> WriteAnswer
    ensures { Written (record { width = width; height = height; base = base }) table.now names.now pixels.now output.old result output.new }
{
    let canvas = Canvas {
        width,
        height,
        base,
    };
    xcf_write::write(canvas, table, names, pixels, output)
}

// The listing of a file, at the text's start, and the reader's table.
#[unsafe(no_mangle)]
pub extern "C" fn xcf_list(file: &[u8], table: &mut [u32], text: &mut [u8]) -> ListAnswer
    ensures { Lists file_limit file.now table.old text.old result table.new text.new }
{
    xcf_listing::list(file, FILE_LIMIT, table, text)
}
