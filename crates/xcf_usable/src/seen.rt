// What the rows before a row are.
ghost use Rattle.std.specs.Prelude.{◌≡◌, ◌+◌, ◌<◌};
ghost use Rattle.xcf_numbers.specs.Limit.{table_rows};
ghost use Rattle.xcf_usable.specs.Usable.{is_active_layer, is_active_channel, is_selection, seen_at};

use xcf_numbers::flag::flag_set;
use xcf_numbers::{flag, kind};
use xcf_table::{Row, row_at};

// How many layers, channels and unused rows, active layers, active channels or masks, and selections; and the last row.
// By default what comes before row 0.
#[derive(Clone, Copy, Default)]
pub struct Seen {
    pub layers: u32,
    pub channels: u32,
    pub unused: u32,
    pub current: u32,
    pub active: u32,
    pub selections: u32,
    pub row: Row,
}

pub(crate) fn is_active_layer(row: Row) -> bool
    ensures { result ≡ is_active_layer row }
{
    row.kind == kind::LAYER && flag_set(row.flags, flag::ACTIVE)
}

pub(crate) fn is_active_channel(row: Row) -> bool
    ensures { result ≡ is_active_channel row }
{
    row.kind != kind::LAYER && flag_set(row.flags, flag::ACTIVE)
}

pub(crate) fn is_selection(row: Row) -> bool
    ensures { result ≡ is_selection row }
{
    row.kind != kind::LAYER && flag_set(row.flags, flag::SELECTION)
}

impl Seen {
    // Behind row k.
    pub(crate) fn see(self, table: &[u32], k: u32) -> Seen
        requires { (k < table_rows) × (self ≡ seen_at table.now k) }
        ensures { result ≡ seen_at table.now (k + 1) }
    {
        let row = row_at(table, k);
        Seen {
            layers: self.layers + u32::from(row.kind == kind::LAYER),
            channels: self.channels + u32::from(row.kind == kind::CHANNEL),
            unused: self.unused + u32::from(row.kind == kind::UNUSED),
            current: self.current + u32::from(is_active_layer(row)),
            active: self.active + u32::from(is_active_channel(row)),
            selections: self.selections + u32::from(is_selection(row)),
            row,
        }
    }
}
