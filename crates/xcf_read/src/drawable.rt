// A layer, a mask and a channel, each with its hierarchy: their rows go into the table. A refusal leaves the table its length,
// and the numbers in it mean nothing.
ghost use Rattle.std.specs.Prelude.{◌≡◌, ◌+◌, ◌*◌, ◌≤◌, ◌<◌, length, IfOk};
ghost use Rattle.xcf_numbers.specs.Limit.{file_limit, side_limit, row_size, table_rows, table_size};
ghost use Rattle.xcf_store.specs.Width.{bytes_of};
ghost use Rattle.xcf_walk.specs.Cursor.{WalksBy};
ghost use Rattle.xcf_table.specs.Table.{rows_in};
ghost use Rattle.xcf_read.specs.Drawable.{channel_rows, mask_rows, layer_rows};
ghost use Rattle.xcf_read.specs.Parts.{drawable, rows_most};

use xcf_numbers::reason::Refusal;
use xcf_parse::drawable::{Layer, Owner, read_channel, read_layer};
use xcf_parse::hierarchy::hierarchy;
use xcf_row::{channel_owner, channel_row, layer_row, mask_owner};
use xcf_store::pointer::Width;
use xcf_table::canvas::{Canvas, depth_of};
use xcf_table::put_row;
use xcf_walk::cursor::Cursor;

// What a list of the image leads to.
#[derive(Clone, Copy)]
pub enum Kind {
    Layer,
    Channel,
}

// The row of a mask or channel becomes row k. The answer, here and below, is how many rows the table holds then.
#[tactic(auto, using(xcf_walk::proofs::Walks::steps, xcf_table::proofs::Puts::put_adds, xcf_table::proofs::Puts::put_length), unfolding(crate::specs::Drawable::channel_rows))]
fn channel_rows(
    cursor: &mut Cursor,
    width: Width,
    table: &mut [u32],
    o: Owner,
    k: u32,
) -> Result<u32, Refusal>
    requires in_range { (length cursor.old.file.now ≤ file_limit) × (o.width ≤ side_limit) × (o.height ≤ side_limit) }
    requires k_lt_table_rows { (k < table_rows) × (row_size * (k + 1) ≤ length table.old) }
    ensures walks { WalksBy (λ n. rows_in n table.new) (channel_rows (bytes_of width) o (rows_in k table.old)) cursor.old result cursor.new }
    ensures size { length table.new ≡ length table.old }
    ensures rows_value { IfOk result (λ rows. rows ≡ k + 1) }
{
    let x = read_channel(cursor, width, o)?;
    cursor.jump(x.hierarchy);
    let tiles = hierarchy(cursor, width, o.width, o.height, 1)?;
    put_row(table, k, channel_row(o, x, tiles));
    Ok(k + 1)
}

// The mask of the layer of row k, if it has one, becomes row k + 1.
#[tactic(auto, using(xcf_walk::proofs::Walks::steps), unfolding(crate::specs::Drawable::mask_rows, xcf_row::specs::Row::mask_owner))]
fn mask_rows(
    cursor: &mut Cursor,
    width: Width,
    table: &mut [u32],
    x: Layer,
    k: u32,
) -> Result<u32, Refusal>
    requires in_range { (length cursor.old.file.now ≤ file_limit) × (x.width ≤ side_limit) × (x.height ≤ side_limit) }
    requires k_bound { (k + 1 < table_rows) × (row_size * (k + 2) ≤ length table.old) }
    ensures walks { WalksBy (λ n. rows_in n table.new) (mask_rows (bytes_of width) x k (rows_in (k + 1) table.old)) cursor.old result cursor.new }
    ensures size { length table.new ≡ length table.old }
    ensures rows_bound { IfOk result (λ rows. rows ≤ k + 2) }
{
    if x.mask == 0 {
        return Ok(k + 1);
    }
    cursor.jump(x.mask);
    channel_rows(cursor, width, table, mask_owner(x, k), k + 1)
}

// The row of a layer becomes row k, and its mask's the next.
#[tactic(auto, using(xcf_walk::proofs::Walks::steps, xcf_table::proofs::Puts::put_adds, xcf_table::proofs::Puts::put_length), unfolding(crate::specs::Drawable::layer_rows))]
fn layer_rows(
    cursor: &mut Cursor,
    width: Width,
    table: &mut [u32],
    c: Canvas,
    k: u32,
) -> Result<u32, Refusal>
    requires in_range { length cursor.old.file.now ≤ file_limit }
    requires k_bound { (k + 1 < table_rows) × (row_size * (k + 2) ≤ length table.old) }
    ensures walks { WalksBy (λ n. rows_in n table.new) (layer_rows (bytes_of width) c (rows_in k table.old)) cursor.old result cursor.new }
    ensures size { length table.new ≡ length table.old }
    ensures rows_bound { IfOk result (λ rows. rows ≤ k + 2) }
{
    let x = read_layer(cursor, width, c.base)?;
    cursor.jump(x.fields.hierarchy);
    let tiles = hierarchy(cursor, width, x.width, x.height, depth_of(x.form))?;
    put_row(table, k, layer_row(x, tiles, k));
    mask_rows(cursor, width, table, x, k)
}

// The drawable of this kind at the cursor: a layer, with its mask, or a channel.
#[tactic(auto, unfolding(crate::specs::Drawable::canvas_channel_rows, xcf_row::specs::Row::channel_owner))]
pub(crate) fn drawable(
    cursor: &mut Cursor,
    width: Width,
    table: &mut [u32],
    kind: Kind,
    c: Canvas,
    k: u32,
) -> Result<u32, Refusal>
    requires in_range { (length cursor.old.file.now ≤ file_limit) × (c.width ≤ side_limit) × (c.height ≤ side_limit) }
    requires kind_bound { (k + rows_most kind 1 ≤ table_rows) × (length table.old ≡ table_size) }
    ensures walks { WalksBy (λ n. rows_in n table.new) (drawable (bytes_of width) kind c (rows_in k table.old)) cursor.old result cursor.new }
    ensures size { length table.new ≡ length table.old }
    ensures rows_bound { IfOk result (λ rows. rows ≤ k + rows_most kind 1) }
{
    match kind {
        Kind::Layer => layer_rows(cursor, width, table, c, k),
        Kind::Channel => channel_rows(cursor, width, table, channel_owner(c, k), k),
    }
}
