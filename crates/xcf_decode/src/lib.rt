// The tiles of an XCF drawable, decoded to its pixels and marks.
#![tactic(auto)]

mod check;
mod count;
mod drawable;

ghost use Rattle.std.specs.Prelude.{◌≡◌};
ghost use Rattle.xcf_decode.specs.Answer.{counting, DrawableDecoded};
ghost use Rattle.xcf_decode.specs.Parts.{AnswerOf};

use crate::check::{Lent, drawable_of};
use crate::count::count_row;
use crate::drawable::decode_row;
use xcf_numbers::reason::Refusal;
use xcf_table::row_at;

#[repr(C)]
#[derive(Drop)]
pub struct DecodeAnswer {
    pub number: u64,
    pub place: u64,
    pub marked: u64,
}

impl From<Refusal> for DecodeAnswer {
    ghost from_gives = { AnswerOf };

    fn from(refusal: Refusal) -> DecodeAnswer {
        DecodeAnswer {
            number: u64::from(refusal.reason),
            place: refusal.place as u64,
            marked: 0,
        }
    }
}

// The pixels and marks of the table's row k; tiles are plain for compression 0, encoded for 1, and a pointer has `size` bytes.
pub fn decode(
    file: &[u8],
    table: &[u32],
    k: u32,
    compression: u32,
    size: usize,
    pixels: &mut [u8],
    marks: &mut [u8],
) -> DecodeAnswer
    ensures { DrawableDecoded size file.now table.now k compression pixels.old marks.old result pixels.new marks.new }
{
    let row = row_at(table, k);
    let lent = Lent {
        pixels: pixels.len(),
        marks: marks.len(),
    };
    match drawable_of(file, table.len(), row, compression, size, Some(lent)) {
        Err(refusal) => DecodeAnswer::from(refusal),
        Ok(drawable) => DecodeAnswer {
            number: 0,
            place: 0,
            marked: decode_row(&drawable, pixels, marks),
        },
    }
}

// How many tiles of the table's row k are marked.
pub fn count_marked(
    file: &[u8],
    table: &[u32],
    k: u32,
    compression: u32,
    size: usize,
) -> DecodeAnswer
    ensures { result ≡ counting size file.now table.now k compression }
{
    let row = row_at(table, k);
    match drawable_of(file, table.len(), row, compression, size, None) {
        Err(refusal) => DecodeAnswer::from(refusal),
        Ok(drawable) => DecodeAnswer {
            number: 0,
            place: 0,
            marked: count_row(&drawable),
        },
    }
}
