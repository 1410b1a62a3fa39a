// One stream, and one tile, encoded.
#![tactic(auto)]

mod streams;
mod tile;

ghost use Rattle.xcf_encode.specs.Answer.{StreamEncoded, TileEncoded};
ghost use Rattle.xcf_encode.specs.Parts.{AnswerOf, StreamEncodes, TileEncodes};

use crate::streams::Streams;
use crate::tile::Pixels;
use xcf_numbers::limit::STREAM_LIMIT;
use xcf_numbers::reason::Reason;
use xcf_numbers::refusal::ACCEPTED;

#[repr(C)]
#[derive(Drop)]
pub struct EncodeAnswer {
    pub number: u64,
    pub place: u64,
    pub length: u64,
}

// The length of an encoding, or why there is none, as C sees it.
impl From<Result<usize, Reason>> for EncodeAnswer {
    ghost from_gives = { AnswerOf };

    fn from(encoded: Result<usize, Reason>) -> EncodeAnswer {
        match encoded {
            Ok(length) => EncodeAnswer {
                number: ACCEPTED,
                place: 0,
                length: length as u64,
            },
            Err(reason) => EncodeAnswer {
                number: u64::from(reason),
                place: 0,
                length: 0,
            },
        }
    }
}

fn encoded_stream(stream: &[u8], output: &mut [u8]) -> Result<usize, Reason>
    ensures { StreamEncodes stream.now output.old result output.new }
{
    if STREAM_LIMIT < stream.len() {
        return Err(Reason::WrongBuffer);
    }
    Streams::new(stream, stream.len(), 1).encode(output)
}

fn encoded_tile(
    pixels: &[u8],
    width: u32,
    height: u32,
    depth: u32,
    output: &mut [u8],
) -> Result<usize, Reason>
    ensures { TileEncodes pixels.now width height depth output.old result output.new }
{
    if !xcf_tile::usable_tile(width, height, depth) {
        return Err(Reason::Unusable);
    }
    let n = (width * height) as usize;
    if pixels.len() != n * depth as usize {
        return Err(Reason::WrongBuffer);
    }
    Pixels::new(pixels, n, depth as usize).encode(output)
}

// The encoding of a stream of at most 4,096 bytes, at the output's start.
pub fn encode_stream(stream: &[u8], output: &mut [u8]) -> EncodeAnswer
    ensures { StreamEncoded stream.now output.old result output.new }
{
    encoded_stream(stream, output).into()
}

// The encoding of a tile of `width` by `height` pixels of `depth` bytes each, at the output's start.
pub fn encode_tile(
    pixels: &[u8],
    width: u32,
    height: u32,
    depth: u32,
    output: &mut [u8],
) -> EncodeAnswer
    ensures { TileEncoded pixels.now width height depth output.old result output.new }
{
    encoded_tile(pixels, width, height, depth, output).into()
}
