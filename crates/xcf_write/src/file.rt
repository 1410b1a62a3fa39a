// The file: measured, and stored where it fits.
ghost use Rattle.std.specs.Prelude.{◌≡◌};
ghost use Rattle.xcf_body.specs.Rows.{used_rows};
ghost use Rattle.xcf_write.specs.Parts.{Fitted};
ghost use Rattle.xcf_write.specs.Result.{answer_of};

use xcf_body::UsedRows;
use xcf_image::Image;
use xcf_numbers::limit::{FILE_LIMIT, PLACES_SIZE};
use xcf_numbers::reason::{Reason, Refusal};
use xcf_store::output::Output;
use xcf_table::canvas::Canvas;

// The file of the used rows at the output's start, and its length.
pub(crate) fn write_file(
    canvas: Canvas,
    rows: &UsedRows<'_>,
    output: &mut [u8],
) -> Result<usize, Refusal>
    requires { rows.now.used ≡ used_rows rows.now.table.now }
    ensures { Fitted canvas rows.now.table.now rows.now.names.now rows.now.pixels.now output.old (answer_of result) output.new }
{
    let image = Image {
        canvas,
        table: rows.table,
        used: rows.used,
    };
    let mut places = [0usize; PLACES_SIZE];
    let start = image.size();
    let size = rows.measure(start, &mut places);
    if output.len() < size || FILE_LIMIT < size {
        return Err(Refusal {
            reason: Reason::NoRoom,
            place: 0,
        });
    }
    let mut front = Output {
        bytes: output,
        at: 0,
    };
    image.put(&mut front, &places);
    rows.put(&mut front, &places);
    Ok(size)
}
