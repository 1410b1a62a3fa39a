// An XCF file, written from rows, names and pixels.
#![tactic(auto)]

mod check;
mod file;

ghost use Rattle.xcf_write.specs.Answer.{Written};
ghost use Rattle.xcf_write.specs.Result.{AnswerOf, answer_of};

use crate::check::rows_to_write;
use crate::file::write_file;
use xcf_numbers::reason::Refusal;
use xcf_numbers::refusal::ACCEPTED;
use xcf_table::canvas::Canvas;

#[repr(C)]
#[derive(Drop)]
pub struct WriteAnswer {
    pub number: u64,
    pub place: u64,
    pub length: u64,
}

// The length of a file, or why there is none, as C sees it.
impl From<Result<usize, Refusal>> for WriteAnswer {
    ghost from_gives = { AnswerOf };

    fn from(written: Result<usize, Refusal>) -> WriteAnswer {
        match written {
            Ok(length) => WriteAnswer {
                number: ACCEPTED,
                place: 0,
                length: length as u64,
            },
            Err(refusal) => WriteAnswer {
                number: u64::from(refusal.reason),
                place: refusal.place as u64,
                length: 0,
            },
        }
    }
}

fn written(
    canvas: Canvas,
    table: &[u32],
    names: &[u8],
    pixels: &[u8],
    output: &mut [u8],
) -> Result<usize, Refusal>
    ensures { Written canvas table.now names.now pixels.now output.old (answer_of result) output.new }
{
    let rows = rows_to_write(canvas, table, names, pixels)?;
    write_file(canvas, &rows, output)
}

// The file of the table's used rows, whose names stand in `names` and whose pixels follow each other in `pixels`, at the output's
// start.
pub fn write(
    canvas: Canvas,
    table: &[u32],
    names: &[u8],
    pixels: &[u8],
    output: &mut [u8],
) -> WriteAnswer
    ensures { Written canvas table.now names.now pixels.now output.old result output.new }
{
    written(canvas, table, names, pixels, output).into()
}
