// The lines of a table's rows.
ghost use Rattle.std.specs.Prelude.{◌≡◌, ◌+◌, ◌*◌, ◌≤◌, length};
ghost use Rattle.xcf_numbers.specs.Limit.{row_size};
ghost use Rattle.xcf_text.specs.Stores.{StoresWithin};
ghost use Rattle.xcf_text.specs.Text.{line_size};
ghost use Rattle.xcf_listing.specs.Listing.{row_lines, marked_tiles};

use xcf_decode::count_marked;
use xcf_row_line::put_row;
use xcf_store::output::Output;

// The lines of the first rows of a table; a pointer has `size` bytes. Gives how many tiles of these rows are marked.
pub(crate) fn put_rows(
    file: &[u8],
    table: &[u32],
    compression: u32,
    size: usize,
    rows: u32,
    text: &mut Output<'_>,
) -> u64
    requires { (text.old.at + line_size * rows ≤ length text.old.bytes.now) × (row_size * rows ≤ length table.now) }
    ensures stores { StoresWithin text.old (row_lines size file.now table.now compression 0 rows) (line_size * rows) text.new }
    ensures marked_value { result ≡ marked_tiles size file.now table.now compression 0 rows }
    ensures same { text.new.bytes.ghost_name ≡ text.old.bytes.ghost_name }
{
    let mut marked: u64 = 0;
    for k in 0..rows {
        let answer = count_marked(file, table, k, compression, size);
        put_row(table, k, answer.marked, text);
        marked += answer.marked;
    }
    marked
}
