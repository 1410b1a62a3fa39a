// The line of a row in a listing.
#![tactic(auto)]

ghost use Rattle.std.specs.Prelude.{◌≡◌, ◌+◌, ◌*◌, ◌≤◌, length};
ghost use Rattle.xcf_numbers.specs.Limit.{row_size};
ghost use Rattle.xcf_text.specs.Stores.{StoresWithin};
ghost use Rattle.xcf_text.specs.Text.{line_size};
ghost use Rattle.xcf_row_line.specs.RowLine.{kind_name, row_line};

use xcf_numbers::kind;
use xcf_numbers::limit::ROW_SIZE;
use xcf_store::output::Output;
use xcf_text::{put_all, put_decimal, put_last};

#[tactic(auto, unfolding(crate::specs::RowLine::kind_name))]
fn kind_name(kind: u32) -> &'static [u8]
    ensures { result.now ≡ kind_name kind }
{
    match kind {
        kind::LAYER => b" layer",
        kind::MASK => b" mask",
        _ => b" channel",
    }
}

// The line of row k, of whose tiles so many are marked.
pub fn put_row(table: &[u32], k: u32, marked: u64, text: &mut Output<'_>)
    requires { (text.old.at + line_size ≤ length text.old.bytes.now) × (row_size * (k + 1) ≤ length table.now) }
    ensures stores { StoresWithin text.old (row_line table.now k marked) line_size text.new }
    ensures same { text.new.bytes.ghost_name ≡ text.old.bytes.ghost_name }
{
    let start = ROW_SIZE * k as usize;
    put_decimal(text, k as u64);
    text.bytes(kind_name(table[start]));
    put_all(text, &table[start + 1..start + ROW_SIZE]);
    put_last(text, b" bad", marked);
}
