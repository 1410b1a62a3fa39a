// What is refused before the file is measured.
ghost use Rattle.std.specs.Prelude.{◌≡◌, length, IfOk};
ghost use Rattle.xcf_write.specs.Answer.{rows_refusal, input_refusal};
ghost use Rattle.xcf_write.specs.Result.{refusal_of};
ghost use Rattle.xcf_write.specs.Parts.{Taken};

use xcf_body::{UsedRows, pixels_size, used_rows};
use xcf_numbers::base;
use xcf_numbers::limit::TABLE_SIZE;
use xcf_numbers::reason::{Reason, Refusal};
use xcf_table::canvas::{Canvas, side_ok};
use xcf_usable::bad_row;

// The places of the canvas's sides and base type in a file.
const WIDTH_PLACE: usize = 14;

const HEIGHT_PLACE: usize = 18;

const BASE_PLACE: usize = 22;

// The used rows of a table without a bad row, where the pixels are as many as they have.
fn good_rows<'a>(
    canvas: Canvas,
    table: &'a [u32],
    names: &'a [u8],
    pixels: &'a [u8],
) -> Result<UsedRows<'a>, Refusal>
    ensures refusal { refusal_of result ≡ rows_refusal canvas table.now names.now (length pixels.now) }
    ensures rows { IfOk result (λ rows. Taken rows table.now names.now pixels.now) }
{
    if let Some(row) = bad_row(canvas, names, table) {
        return Err(Refusal {
            reason: Reason::BadRow,
            place: row as usize,
        });
    }
    let used = used_rows(table);
    if pixels.len() != pixels_size(table, used) {
        return Err(Refusal {
            reason: Reason::WrongBuffer,
            place: 0,
        });
    }
    Ok(UsedRows {
        table,
        used,
        names,
        pixels,
    })
}

// The used rows, where the table has its length, the canvas's sides are in range and its base type is written.
#[tactic(auto, unfolding(crate::specs::Answer::input_refusal))]
pub(crate) fn rows_to_write<'a>(
    canvas: Canvas,
    table: &'a [u32],
    names: &'a [u8],
    pixels: &'a [u8],
) -> Result<UsedRows<'a>, Refusal>
    ensures refusal { refusal_of result ≡ input_refusal canvas table.now names.now (length pixels.now) }
    ensures rows { IfOk result (λ rows. Taken rows table.now names.now pixels.now) }
{
    if table.len() != TABLE_SIZE {
        return Err(Refusal {
            reason: Reason::WrongBuffer,
            place: 0,
        });
    }
    if !side_ok(canvas.width) {
        return Err(Refusal {
            reason: Reason::BadSide,
            place: WIDTH_PLACE,
        });
    }
    if !side_ok(canvas.height) {
        return Err(Refusal {
            reason: Reason::BadSide,
            place: HEIGHT_PLACE,
        });
    }
    if base::GREY < canvas.base {
        return Err(Refusal {
            reason: Reason::BadBase,
            place: BASE_PLACE,
        });
    }
    good_rows(canvas, table, names, pixels)
}
