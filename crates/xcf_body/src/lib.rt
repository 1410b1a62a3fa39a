// The used rows of a table: counted, measured and stored.
#![tactic(auto)]

ghost use Rattle.std.specs.Prelude.{◌≡◌, cond, ◌+◌, ◌*◌, ◌≤◌, ◌<◌, length};
ghost use Rattle.std.proofs.lemmas.List.Edits.{sets};
ghost use Rattle.xcf_numbers.specs.Limit.{file_limit, table_rows, image_limit};
ghost use Rattle.xcf_store.specs.Output.{Stores};
ghost use Rattle.xcf_table.specs.Table.{row_at};
ghost use Rattle.xcf_drawable.specs.Drawing.{drawable_of};
ghost use Rattle.xcf_body.specs.Rows.{drawables_bytes, places_from, pixels_size, row_drawable, drawables_from, used_rows};
ghost use Rattle.xcf_grid.specs.Drawn.{pixel_size, InRange};
ghost use Rattle.xcf_body.specs.Parts.{RowsInRange, RowReady, RowsReady, end_of, Placed, pixel_limit};

use xcf_drawable::Drawing;
use xcf_numbers::kind;
use xcf_numbers::limit::{PLACES_SIZE, TABLE_ROWS};
use xcf_store::output::Output;
use xcf_structure::Structure;
use xcf_table::{Row, row_at};
use xcf_usable::row::masked;

// How many rows come before the first unused one.
pub fn used_rows(table: &[u32]) -> u32
    ensures { (result ≡ used_rows table.now) × (result ≤ table_rows) }
{
    for k in 0..TABLE_ROWS {
        let row = row_at(table, k);
        if row.kind == kind::UNUSED {
            return k;
        }
    }
    TABLE_ROWS
}

// How many bytes of pixels a row has.
fn pixel_size(row: Row) -> usize
    requires { InRange row }
    ensures { (result ≡ pixel_size row) × (result ≤ pixel_limit) }
{
    row.width as usize * row.height as usize * row.depth as usize
}

// Where the pixels of row k end, which begin at `from`; a row has at most 1,073,741,824 bytes of them.
fn pixels_end(table: &[u32], k: u32, from: usize) -> usize
    requires { InRange (row_at table.now k) × ((k < table_rows) × (from ≤ pixel_limit * k)) }
    ensures { (result ≡ from + pixel_size (row_at table.now k)) × (result ≤ pixel_limit * (k + 1)) }
{
    from + pixel_size(row_at(table, k))
}

// How many bytes of pixels the first n rows have.
pub fn pixels_size(table: &[u32], n: u32) -> usize
    requires { (n ≤ table_rows) × RowsInRange table.now n }
    ensures { result ≡ pixels_size table.now n 0 }
{
    let mut size: usize = 0;
    for k in 0..n {
        size = pixels_end(table, k, size);
    }
    size
}

// What the pointer to its mask says in a drawable that ends at `end`, where its mask begins if it has one.
fn mask_place(masked: bool, end: usize) -> usize
    ensures { result ≡ cond masked end 0 }
{
    if masked { end } else { 0 }
}

// The rows of a table, as many of them as are used, with their names, and their pixels one row's behind the other's.
#[derive(Clone, Copy)]
pub struct UsedRows<'a> {
    pub table: &'a [u32],
    pub used: u32,
    pub names: &'a [u8],
    pub pixels: &'a [u8],
    pub ghost ready: { RowsReady table.now names.now pixels.now used },
}

impl<'a> UsedRows<'a> {
    // What is written for row k, which has these pixels.
    fn drawing(&self, k: u32, pixels: &'a [u8]) -> Drawing<'a>
        requires { RowReady self.now.table.now self.now.names.now k pixels.now }
        ensures { drawable_of result ≡ row_drawable self.now.table.now self.now.names.now k pixels.now }
    {
        let row = row_at(self.table, k);
        let start = row.name as usize;
        let end = start + row.namelen as usize;
        let structure = Structure {
            row,
            masked: masked(self.table, k),
            name: &self.names[start..end],
        };
        Drawing { structure, pixels }
    }

    // The places of the rows' drawables, the first at `start`, and of their end, which is also the answer.
    pub fn measure(&self, start: usize, places: &mut [usize; PLACES_SIZE]) -> usize
        requires { start ≤ image_limit }
        ensures value { result ≡ end_of (drawables_from self.now.table.now self.now.used 0 self.now.names.now self.now.pixels.now) start }
        ensures places_after { places.new ≡ sets places.old 0 (places_from (drawables_from self.now.table.now self.now.used 0 self.now.names.now self.now.pixels.now) start) }
    {
        let mut from: usize = 0;
        let mut to = start;
        for k in 0..self.used {
            let end = pixels_end(self.table, k, from);
            places[k as usize] = to;
            to += self.drawing(k, &self.pixels[from..end]).measure();
            from = end;
        }
        places[self.used as usize] = to;
        to
    }

    // The rows' drawables.
    pub fn put(&self, output: &mut Output<'_>, places: &[usize; PLACES_SIZE])
        requires placed { Placed places.now 0 (drawables_from self.now.table.now self.now.used 0 self.now.names.now self.now.pixels.now) output.old.at }
        requires room { end_of (drawables_from self.now.table.now self.now.used 0 self.now.names.now self.now.pixels.now) output.old.at ≤ length output.old.bytes.now }
        requires low { end_of (drawables_from self.now.table.now self.now.used 0 self.now.names.now self.now.pixels.now) output.old.at ≤ file_limit }
        ensures stores { Stores output.old (drawables_bytes (drawables_from self.now.table.now self.now.used 0 self.now.names.now self.now.pixels.now) output.old.at) output.new }
        ensures same { output.new.bytes.ghost_name ≡ output.old.bytes.ghost_name }
    {
        let mut at: usize = 0;
        for k in 0..self.used {
            let end = pixels_end(self.table, k, at);
            let next = places[k as usize + 1];
            let drawing = self.drawing(k, &self.pixels[at..end]);
            drawing.put(output, mask_place(drawing.structure.masked, next));
            at = end;
        }
    }
}
