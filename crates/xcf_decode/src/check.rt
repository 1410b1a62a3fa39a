// What is refused before a drawable is decoded or counted.
ghost use Rattle.std.specs.Prelude.{◌≡◌, IfOk, OnOk, true};
ghost use Rattle.xcf_store.specs.Width.{bytes_of};
ghost use Rattle.xcf_grid.specs.Drawn.{InRange};
ghost use Rattle.xcf_walk.specs.Walk.{run};
ghost use Rattle.xcf_walk.specs.Pointers.{tiles};
ghost use Rattle.xcf_window.specs.Parts.{DrawableOf, IsReady};
ghost use Rattle.xcf_decode.specs.Answer.{pointers_refusal, lent_fits, drawable_refusal};
ghost use Rattle.xcf_decode.specs.Parts.{verdict_answer, ReadyOf};

use xcf_numbers::reason::{Reason, Refusal};
use xcf_table::Row;
use xcf_walk::cursor::Cursor;
use xcf_window::drawable::Drawable;

// The lengths of the buffers lent for pixels and marks.
#[derive(Clone, Copy)]
pub struct Lent {
    pub pixels: usize,
    pub marks: usize,
}

fn fits_lent(drawable: &Drawable<'_>, lent: Option<Lent>) -> bool
    requires { InRange drawable.now.row }
    ensures { result ≡ lent_fits drawable.now.row lent }
{
    match lent {
        None => true,
        Some(lent) => drawable.fits(lent.pixels, lent.marks),
    }
}

// 13 at the lowest bad one of the drawable's tile pointers.
fn check_pointers(drawable: &Drawable<'_>) -> Result<(), Refusal>
    requires { InRange drawable.now.row }
    ensures refused { verdict_answer result ≡ pointers_refusal (run (tiles (bytes_of drawable.now.width) drawable.now.row.count 0) drawable.now.file.now drawable.now.row.pointers) }
    ensures ready { OnOk result (IsReady drawable.now) }
{
    let row = drawable.row;
    let mut cursor = Cursor {
        file: drawable.file,
        at: row.pointers as usize,
    };
    cursor.tiles(drawable.width, row.count)
}

// The drawable of a row, from a table of so many numbers; where buffers are lent, they fit it.
pub(crate) fn drawable_of<'a>(
    file: &'a [u8],
    numbers: usize,
    row: Row,
    compression: u32,
    size: usize,
    lent: Option<Lent>,
) -> Result<Drawable<'a>, Refusal>
    ensures refused { verdict_answer result ≡ drawable_refusal size file.now numbers row compression (lent_fits row lent) }
    ensures ready { IfOk result (ReadyOf size file.now row compression (lent_fits row lent)) }
{
    let drawable = match Drawable::of(file, numbers, row, compression, size) {
        Ok(drawable) => drawable,
        Err(reason) => return Err(Refusal { reason, place: 0 }),
    };
    if !fits_lent(&drawable, lent) {
        return Err(Refusal {
            reason: Reason::WrongBuffer,
            place: 0,
        });
    }
    check_pointers(&drawable)?;
    Ok(drawable)
}
