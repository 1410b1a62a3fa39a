// What a row of each kind has to be.
ghost use Rattle.std.specs.Prelude.{◌≡◌, ◌+◌, ◌≤◌, ◌<◌, length};
ghost use Rattle.xcf_numbers.specs.Flag;
ghost use Rattle.xcf_usable.specs.Usable.{flags_ok, drawable_ok, name_ok, layer_ok, layer_follows, channel_ok, mask_follows, channel_follows};

use crate::seen::{Seen, is_active_channel, is_active_layer, is_selection};
use xcf_grid::tile_count;
use xcf_numbers::flag::flag_of;
use xcf_numbers::limit::{
    CHANNEL_LIMIT, FULL_OPACITY, LAYER_LIMIT, MODE_LIMIT, NAME_LIMIT, WRITTEN_TYPE_LIMIT,
};
use xcf_numbers::{flag, kind};
use xcf_table::Row;
use xcf_table::canvas::{Canvas, depth_of, side_ok, type_ok};
use xcf_utf8::well_formed;

// No flags but visible, active, that of the name, and one of the kind's own.
fn flags_ok(flags: u32, own: u32) -> bool
    requires { own < Flag.not_utf8 }
    ensures { result ≡ flags_ok own flags }
{
    let visible = flag_of(flags, flag::VISIBLE);
    let special = own * flag_of(flags, own);
    let active = flag::ACTIVE * flag_of(flags, flag::ACTIVE);
    let name = flag::NOT_UTF8 * flag_of(flags, flag::NOT_UTF8);
    flags == visible + special + active + name
}

// The numbers of any used row.
#[tactic(auto, unfolding(crate::specs::Usable::drawable_ok))]
pub(crate) fn drawable_ok(names: usize, row: Row) -> bool
    ensures { result ≡ drawable_ok names row }
{
    let tiles = tile_count(row.width, row.height);
    let name_end = u64::from(row.name) + u64::from(row.namelen);
    side_ok(row.width)
        && side_ok(row.height)
        && u64::from(row.count) == tiles
        && row.opacity <= FULL_OPACITY
        && row.namelen <= NAME_LIMIT
        && name_end <= names as u64
        && row.list == 0
        && row.pointers == 0
}

// Whether the flag says what the name's bytes are.
#[tactic(auto, unfolding(crate::specs::Usable::name_ok))]
pub(crate) fn name_ok(names: &[u8], row: Row) -> bool
    requires { row.name + row.namelen ≤ length names.now }
    ensures { result ≡ name_ok names.now row }
{
    let start = row.name as usize;
    let end = start + row.namelen as usize;
    let broken = !well_formed(&names[start..end]);
    flag_of(row.flags, flag::NOT_UTF8) == u32::from(broken)
}

#[tactic(auto, unfolding(crate::specs::Usable::layer_ok))]
pub(crate) fn layer_ok(canvas: Canvas, k: u32, row: Row, masked: bool) -> bool
    ensures { result ≡ layer_ok canvas k row masked }
{
    let apply = flag_of(row.flags, flag::APPLY);
    type_ok(canvas.base, row.form)
        && row.form <= WRITTEN_TYPE_LIMIT
        && row.depth == depth_of(row.form)
        && row.mode <= MODE_LIMIT
        && row.owner == k
        && flags_ok(row.flags, flag::APPLY)
        && (apply == 0 || masked)
}

// What a row may be behind the rows seen.
impl Seen {
    #[tactic(auto, unfolding(crate::specs::Usable::layer_follows))]
    pub(crate) fn layer_follows(self, row: Row) -> bool
        ensures { result ≡ layer_follows self row }
    {
        self.layers < LAYER_LIMIT
            && self.channels == 0
            && self.unused == 0
            && (!is_active_layer(row) || self.current == 0)
    }

    #[tactic(auto, unfolding(crate::specs::Usable::channel_ok))]
    pub(crate) fn channel_ok(self, row: Row) -> bool
        ensures { result ≡ channel_ok self row }
    {
        row.depth == 1
            && row.form == 2
            && row.mode == 0
            && flags_ok(row.flags, flag::SELECTION)
            && (!is_active_channel(row) || self.active == 0)
            && (!is_selection(row) || self.selections == 0)
    }

    #[tactic(auto, unfolding(crate::specs::Usable::mask_follows))]
    pub(crate) fn mask_follows(self, k: u32, row: Row) -> bool
        ensures { result ≡ mask_follows k self row }
    {
        let layer = self.row;
        layer.kind == kind::LAYER
            && row.width == layer.width
            && row.height == layer.height
            && row.dx == layer.dx
            && row.dy == layer.dy
            && u64::from(row.owner) + 1 == u64::from(k)
    }

    #[tactic(auto, unfolding(crate::specs::Usable::channel_follows))]
    pub(crate) fn channel_follows(self, canvas: Canvas, k: u32, row: Row) -> bool
        ensures { result ≡ channel_follows canvas k self row }
    {
        row.width == canvas.width
            && row.height == canvas.height
            && row.dx == 0
            && row.dy == 0
            && row.owner == k
            && self.channels < CHANNEL_LIMIT
            && self.unused == 0
    }
}
