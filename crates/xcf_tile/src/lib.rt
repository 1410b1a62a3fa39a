// One tile of an XCF drawable, decoded from its window.
#![tactic(auto)]

ghost use Rattle.std.specs.Prelude.{◌≡◌, IfOk, length, take};
ghost use Rattle.xcf_numbers.specs.Limit.{window_limit};
ghost use Rattle.xcf_numbers.specs.Reason.{verdict};
ghost use Rattle.xcf_stream.specs.Parts.{Sized};
ghost use Rattle.xcf_tile.specs.Tile.{plain_tile, encoded_tile, tile_in};
ghost use Rattle.xcf_tile.specs.Answer.{usable_tile, decode_refusal, Decoded};
ghost use Rattle.xcf_tile.specs.Compression.{number_of, CompressionOf};
ghost use Rattle.xcf_tile.specs.Parts.{TileGiven, UsableTile};

use xcf_numbers::fault::Fault;
use xcf_numbers::limit::{DEPTH_LIMIT, TILE_SIDE, WINDOW_LIMIT};
use xcf_numbers::reason::Reason;
use xcf_range::outside;
use xcf_stream::{StreamEnd, streams};

#[repr(C)]
#[derive(Drop)]
pub struct TileAnswer {
    pub number: u64,
    pub place: u64,
    pub mark: u64,
    pub consumed: u64,
    pub operations: u64,
}

// How a tile's pixels are stored.
#[derive(Clone, Copy, Debug, PartialEq, Eq)]
pub enum Compression {
    Plain,
    Encoded,
}

impl TryFrom<u32> for Compression {
    type Error = Reason;

    ghost try_from_gives = { CompressionOf };

    fn try_from(number: u32) -> Result<Self, Reason> {
        match number {
            0 => Ok(Compression::Plain),
            1 => Ok(Compression::Encoded),
            _ => Err(Reason::Unusable),
        }
    }
}

fn decode_encoded(window: &[u8], n: usize, depth: usize, pixels: &mut [u8]) -> StreamEnd
    requires { Sized n depth pixels.old }
    ensures { TileGiven (encoded_tile window.now n depth) result pixels.new }
{
    let end = streams(window, n, depth, pixels);
    if end.fault.is_some() {
        pixels.fill(0);
    }
    end
}

#[tactic(auto, unfolding(crate::specs::Tile::plain_tile))]
fn decode_plain(window: &[u8], n: usize, depth: usize, pixels: &mut [u8]) -> StreamEnd
    requires { Sized n depth pixels.old }
    ensures { TileGiven (plain_tile window.now n depth) result pixels.new }
{
    let size = pixels.len();
    let Some(bytes) = window.get(..size) else {
        pixels.fill(0);
        return StreamEnd {
            fault: Some(Fault::Short),
            at: 0,
            operations: 0,
        };
    };
    pixels.copy_from_slice(bytes);
    StreamEnd {
        fault: None,
        at: size,
        operations: 0,
    }
}

// The bytes of a window that count.
#[tactic(auto, using(std::proofs::lemmas::List::take_min))]
fn cut(window: &[u8]) -> &[u8]
    ensures { result.now ≡ take window_limit window.now }
{
    &window[..WINDOW_LIMIT.min(window.len())]
}

// The tile of n pixels in a window, which is cut.
#[tactic(auto, unfolding(crate::specs::Tile::tile_in))]
pub fn decode(
    window: &[u8],
    n: usize,
    depth: usize,
    compression: Compression,
    pixels: &mut [u8],
) -> StreamEnd
    requires { Sized n depth pixels.old }
    ensures { TileGiven (tile_in (take window_limit window.now) n depth (number_of compression)) result pixels.new }
{
    let window = cut(window);
    match compression {
        Compression::Plain => decode_plain(window, n, depth, pixels),
        Compression::Encoded => decode_encoded(window, n, depth, pixels),
    }
}

// Whether a tile may have these sides and this depth.
#[tactic(auto, unfolding(crate::specs::Answer::usable_tile))]
pub fn usable_tile(width: u32, height: u32, depth: u32) -> bool
    ensures { result ≡ usable_tile width height depth }
{
    !outside(1, TILE_SIDE, width)
        && !outside(1, TILE_SIDE, height)
        && !outside(1, DEPTH_LIMIT, depth)
}

// The compression of a call that is not refused.
#[tactic(auto, unfolding(crate::specs::Answer::decode_refusal))]
fn usable(
    width: u32,
    height: u32,
    depth: u32,
    compression: u32,
    length: usize,
) -> Result<Compression, Reason>
    ensures refused { verdict result ≡ decode_refusal width height depth compression length }
    ensures usable { IfOk result (UsableTile width height depth compression length) }
{
    if !usable_tile(width, height, depth) {
        return Err(Reason::Unusable);
    }
    let compression = Compression::try_from(compression)?;
    if length != (width * height * depth) as usize {
        return Err(Reason::WrongBuffer);
    }
    Ok(compression)
}

// The tile of `width` by `height` pixels of `depth` bytes each in a window: plain for compression 0, encoded for 1.
#[tactic(auto, unfolding(crate::specs::Tile::tile_of, crate::specs::Answer::decode_answer, crate::specs::Answer::decode_pixels))]
pub fn decode_tile(
    window: &[u8],
    width: u32,
    height: u32,
    depth: u32,
    compression: u32,
    pixels: &mut [u8],
) -> TileAnswer
    ensures { Decoded window.now width height depth compression pixels.old result pixels.new }
{
    match usable(width, height, depth, compression, pixels.len()) {
        Err(reason) => TileAnswer {
            number: u64::from(reason),
            place: 0,
            mark: 0,
            consumed: 0,
            operations: 0,
        },
        Ok(compression) => {
            let n = (width * height) as usize;
            let end = decode(window, n, depth as usize, compression, pixels);
            TileAnswer {
                number: 0,
                place: 0,
                mark: u64::from(end.mark()),
                consumed: end.at as u64,
                operations: end.operations as u64,
            }
        }
    }
}
