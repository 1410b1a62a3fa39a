// The rows that the writer takes.
#![tactic(auto)]

mod kind;
pub mod row;
mod seen;

ghost use Rattle.std.specs.Prelude.{◌≡◌};
ghost use Rattle.xcf_usable.specs.Usable.{bad_row, row_found};

use crate::row::usable;
use crate::seen::Seen;
use xcf_numbers::limit::TABLE_ROWS;
use xcf_table::canvas::Canvas;

// The lowest row of the table that is not usable, if there is one; names has the bytes lent for the names.
pub fn bad_row(canvas: Canvas, names: &[u8], table: &[u32]) -> Option<u32>
    ensures { result ≡ row_found (bad_row canvas names.now table.now) }
{
    let mut seen = Seen::default();
    for k in 0..TABLE_ROWS {
        if !usable(canvas, names, table, k, seen) {
            return Some(k);
        }
        seen = seen.see(table, k);
    }
    None
}
