// The image, and all that it points to.
ghost use Rattle.std.specs.Prelude.{◌≡◌, ◌+◌, ◌≤◌, length, IfOk};
ghost use Rattle.xcf_numbers.specs.Limit.{file_limit, side_limit, table_rows, table_size};
ghost use Rattle.xcf_store.specs.Width.{bytes_of};
ghost use Rattle.xcf_walk.specs.Cursor.{WalksBy};
ghost use Rattle.xcf_table.specs.Table.{no_rows, rows_in};
ghost use Rattle.xcf_read.specs.Image.{canvas_of, drawables, all_rows, image};
ghost use Rattle.xcf_read.specs.Parts.{drawable, rows_most};

use crate::drawable::{Kind, drawable};
use xcf_numbers::reason::Refusal;
use xcf_parse::image::{Head, pointer_width, read_head};
use xcf_store::pointer::Width;
use xcf_table::canvas::Canvas;
use xcf_walk::cursor::Cursor;
use xcf_walk::pointers::{CHANNELS, LAYERS};

// What stands in the file before its pointers, and how many rows the table holds.
#[derive(Clone, Copy)]
pub struct Contents {
    pub head: Head,
    pub rows: u32,
}

// The drawables that a list leads to, behind the k rows of the table.
fn drawables(
    cursor: &mut Cursor,
    width: Width,
    table: &mut [u32],
    kind: Kind,
    c: Canvas,
    list: &[usize],
    k: u32,
) -> Result<u32, Refusal>
    requires in_range { (length cursor.old.file.now ≤ file_limit) × (c.width ≤ side_limit) × (c.height ≤ side_limit) }
    requires room { (k + rows_most kind (length list.now) ≤ table_rows) × (length table.old ≡ table_size) }
    ensures walks { WalksBy (λ n. rows_in n table.new) (drawables (drawable (bytes_of width) kind c) list.now (rows_in k table.old)) cursor.old result cursor.new }
    ensures size { length table.new ≡ length table.old }
    ensures rows_bound { IfOk result (λ rows. rows ≤ k + rows_most kind (length list.now)) }
{
    let mut rows = k;
    for place in list {
        cursor.jump(*place);
        rows = drawable(cursor, width, table, kind, c, rows)?;
    }
    Ok(rows)
}

#[tactic(auto, unfolding(crate::specs::Image::canvas_of))]
fn canvas_of(h: Head) -> Canvas
    ensures { result ≡ canvas_of h }
{
    Canvas {
        width: h.width,
        height: h.height,
        base: h.base,
    }
}

// The rows behind the head: they go into the table from its start.
#[tactic(auto, using(xcf_walk::proofs::Walks::steps), unfolding(crate::specs::Image::all_rows))]
fn all_rows(cursor: &mut Cursor, width: Width, table: &mut [u32], c: Canvas) -> Result<u32, Refusal>
    requires in_range { (length cursor.old.file.now ≤ file_limit) × (c.width ≤ side_limit) × (c.height ≤ side_limit) }
    requires table_len { length table.old ≡ table_size }
    ensures walks { WalksBy (λ n. rows_in n table.new) (all_rows (bytes_of width) c) cursor.old result cursor.new }
    ensures size { length table.new ≡ length table.old }
    ensures rows_le_table_rows { IfOk result (λ rows. rows ≤ table_rows) }
{
    let layers = cursor.pointers::<LAYERS>(width)?;
    let channels = cursor.pointers::<CHANNELS>(width)?;
    let rows = drawables(cursor, width, table, Kind::Layer, c, &layers, 0)?;
    drawables(cursor, width, table, Kind::Channel, c, &channels, rows)
}

// The image at the cursor, its rows in the table.
#[tactic(auto, using(xcf_walk::proofs::Walks::steps), unfolding(crate::specs::Image::image, crate::specs::Image::canvas_of))]
pub(crate) fn image(cursor: &mut Cursor, table: &mut [u32]) -> Result<Contents, Refusal>
    requires { (length cursor.old.file.now ≤ file_limit) × (length table.old ≡ table_size) }
    ensures walks { WalksBy (λ x. record { head = x.head; rows = rows_in x.rows table.new }) image cursor.old result cursor.new }
    ensures rows_le_table_rows { IfOk result (λ x. x.rows ≤ table_rows) }
    ensures table_len { length table.new ≡ table_size }
{
    let head = read_head(cursor)?;
    let width = pointer_width(head.version);
    let rows = all_rows(cursor, width, table, canvas_of(head))?;
    Ok(Contents { head, rows })
}
