// The row of a layer, a mask or a channel, from what its structure says.
#![tactic(auto)]

ghost use Rattle.std.specs.Prelude.{◌≡◌, ◌≤◌};
ghost use Rattle.xcf_numbers.specs.Limit.{file_limit, side_limit};
ghost use Rattle.xcf_numbers.specs.Flag.{not_utf8};
ghost use Rattle.xcf_row.specs.Row.{flag, layer_flags, channel_flags, name_flag, layer_row, channel_row, mask_owner, channel_owner};
ghost use Rattle.xcf_parse.specs.Parts.{FieldsLow, LayerLow};

use xcf_grid::tile_count;
use xcf_numbers::{flag, kind};
use xcf_parse::drawable::{Fields, Layer, Owner};
use xcf_property::Properties;
use xcf_table::Row;
use xcf_table::canvas::{Canvas, depth_of};
use xcf_walk::cursor::Name;

#[tactic(auto, unfolding(crate::specs::Row::flag))]
fn flag(v: u32, bit: u32) -> u32
    ensures { (result ≡ flag v bit) × (result ≤ bit) }
{
    if v == 0 { 0 } else { bit }
}

#[tactic(auto, unfolding(crate::specs::Row::name_flag))]
fn name_flag(name: Name) -> u32
    ensures { (result ≡ name_flag name) × (result ≤ not_utf8) }
{
    if name.utf8 { 0 } else { flag::NOT_UTF8 }
}

#[tactic(auto, unfolding(crate::specs::Row::layer_flags))]
fn layer_flags(p: Properties, mask: usize, name: Name) -> u32
    ensures { result ≡ layer_flags p mask name }
{
    let apply = if mask == 0 { 0 } else { p.apply };
    flag(p.visible, flag::VISIBLE)
        + flag(apply, flag::APPLY)
        + flag(p.active, flag::ACTIVE)
        + flag(p.group, flag::GROUP)
        + name_flag(name)
}

#[tactic(auto, unfolding(crate::specs::Row::channel_flags))]
fn channel_flags(p: Properties, name: Name) -> u32
    ensures { result ≡ channel_flags p name }
{
    flag(p.visible, flag::VISIBLE)
        + flag(p.selection, flag::SELECTION)
        + flag(p.active, flag::ACTIVE)
        + name_flag(name)
}

#[tactic(auto, unfolding(crate::specs::Row::layer_row))]
pub fn layer_row(x: Layer, tiles: usize, k: u32) -> Row
    requires { (tiles ≤ file_limit) × LayerLow x file_limit }
    ensures { result ≡ layer_row x tiles k }
{
    let own = x.fields;
    let name = own.name;
    let p = own.properties;
    Row {
        kind: kind::LAYER,
        width: x.width,
        height: x.height,
        depth: depth_of(x.form),
        form: x.form,
        name: name.place as u32,
        namelen: name.length as u32,
        list: own.list as u32,
        pointers: tiles as u32,
        count: tile_count(x.width, x.height) as u32,
        opacity: p.opacity,
        flags: layer_flags(p, x.mask, name),
        dx: p.dx,
        dy: p.dy,
        mode: p.mode,
        owner: k,
    }
}

#[tactic(auto, unfolding(crate::specs::Row::channel_row))]
pub fn channel_row(o: Owner, x: Fields, tiles: usize) -> Row
    requires { (tiles ≤ file_limit) × (o.width ≤ side_limit) × (o.height ≤ side_limit) × FieldsLow x file_limit }
    ensures { result ≡ channel_row o x tiles }
{
    let name = x.name;
    let p = x.properties;
    Row {
        kind: o.kind,
        width: o.width,
        height: o.height,
        depth: 1,
        form: 2,
        name: name.place as u32,
        namelen: name.length as u32,
        list: x.list as u32,
        pointers: tiles as u32,
        count: tile_count(o.width, o.height) as u32,
        opacity: p.opacity,
        flags: channel_flags(p, name),
        dx: o.dx,
        dy: o.dy,
        mode: 0,
        owner: o.row,
    }
}

#[tactic(auto, unfolding(crate::specs::Row::mask_owner))]
pub fn mask_owner(x: Layer, k: u32) -> Owner
    ensures { result ≡ mask_owner x k }
{
    let own = x.fields;
    let p = own.properties;
    Owner {
        kind: kind::MASK,
        width: x.width,
        height: x.height,
        dx: p.dx,
        dy: p.dy,
        row: k,
    }
}

#[tactic(auto, unfolding(crate::specs::Row::channel_owner))]
pub fn channel_owner(c: Canvas, k: u32) -> Owner
    ensures { result ≡ channel_owner c k }
{
    Owner {
        kind: kind::CHANNEL,
        width: c.width,
        height: c.height,
        dx: 0,
        dy: 0,
        row: k,
    }
}
