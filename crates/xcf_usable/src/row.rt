// Whether a row of the table is usable.
ghost use Rattle.std.specs.Prelude.{◌≡◌, ◌<◌};
ghost use Rattle.xcf_table.specs.Table.{row_at};
ghost use Rattle.xcf_usable.specs.Usable.{masked, all_zero, kind_ok, usable_row};

use crate::kind::{drawable_ok, layer_ok, name_ok};
use crate::seen::Seen;
use xcf_numbers::kind;
use xcf_numbers::limit::{ROW_SIZE, TABLE_ROWS};
use xcf_table::canvas::Canvas;
use xcf_table::{Row, row_at};

// Whether row k has a mask.
#[tactic(auto, unfolding(crate::specs::Usable::masked))]
pub fn masked(table: &[u32], k: u32) -> bool
    ensures { result ≡ masked table.now k }
{
    k < TABLE_ROWS && row_at(table, k + 1).kind == kind::MASK
}

fn all_zero(numbers: &[u32]) -> bool
    ensures { result ≡ all_zero numbers.now }
{
    numbers.iter().all(|n| *n == 0)
}

// Whether a used row is as its kind asks, behind the rows seen. A lent table may hold any number as a kind.
#[tactic(auto, unfolding(crate::specs::Usable::kind_ok))]
fn kind_ok(canvas: Canvas, k: u32, seen: Seen, row: Row, masked: bool) -> bool
    ensures { result ≡ kind_ok canvas k seen row masked }
{
    match row.kind {
        kind::LAYER => layer_ok(canvas, k, row, masked) && seen.layer_follows(row),
        kind::MASK => seen.channel_ok(row) && seen.mask_follows(k, row),
        kind::CHANNEL => seen.channel_ok(row) && seen.channel_follows(canvas, k, row),
        _ => false,
    }
}

// Whether a used row is usable behind the rows seen. Its name is looked at only where it lies in the lent bytes.
#[tactic(auto, unfolding(crate::specs::Usable::usable_row))]
fn used_row(canvas: Canvas, names: &[u8], k: u32, seen: Seen, row: Row, masked: bool) -> bool
    requires { 0 < row.kind }
    ensures { result ≡ usable_row canvas names.now k seen row masked }
{
    drawable_ok(names.len(), row) && name_ok(names, row) && kind_ok(canvas, k, seen, row, masked)
}

// Whether row k is usable behind the rows seen.
#[tactic(auto, unfolding(crate::specs::Usable::usable_row))]
pub(crate) fn usable(canvas: Canvas, names: &[u8], table: &[u32], k: u32, seen: Seen) -> bool
    ensures { result ≡ usable_row canvas names.now k seen (row_at table.now k) (masked table.now k) }
{
    let row = row_at(table, k);
    if row.kind == kind::UNUSED {
        let numbers: [u32; ROW_SIZE] = row.into();
        return all_zero(&numbers);
    }
    used_row(canvas, names, k, seen, row, masked(table, k))
}
