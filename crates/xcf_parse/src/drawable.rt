// The structure of a layer, a mask or a channel.
ghost use Rattle.std.specs.Prelude.{◌≡◌, ◌≤◌, length, IfOk};
ghost use Rattle.xcf_numbers.specs.Limit.{side_limit};
ghost use Rattle.xcf_store.specs.Width.{bytes_of};
ghost use Rattle.xcf_property.specs.List.{list_number};
ghost use Rattle.xcf_walk.specs.Cursor.{Walks};
ghost use Rattle.xcf_parse.specs.Drawable.{side, side_like, layer_type, fields, layer, channel};
ghost use Rattle.xcf_parse.specs.Parts.{FieldsLow, LayerLow};

use crate::hierarchy::pointer;
use xcf_numbers::reason::{Reason, Refusal};
use xcf_property::{ListKind, Properties};
use xcf_store::pointer::Width;
use xcf_table::canvas::{side_ok, type_ok};
use xcf_walk::cursor::{Cursor, Name};

// What every drawable has behind its sides and type; list is the place of its properties.
#[derive(Clone, Copy)]
pub struct Fields {
    pub name: Name,
    pub list: usize,
    pub properties: Properties,
    pub hierarchy: usize,
}

#[derive(Clone, Copy)]
pub struct Layer {
    pub width: u32,
    pub height: u32,
    pub form: u32,
    pub fields: Fields,
    pub mask: usize,
}

// What a mask or channel has from its layer or the canvas, and the row that owns it. Its kind is a row's number, as the
// laws of reading have it.
#[derive(Clone, Copy)]
pub struct Owner {
    pub kind: u32,
    pub width: u32,
    pub height: u32,
    pub dx: u32,
    pub dy: u32,
    pub row: u32,
}

#[tactic(auto, using(xcf_walk::proofs::Walks::steps), unfolding(crate::specs::Drawable::side))]
pub(crate) fn side(cursor: &mut Cursor) -> Result<u32, Refusal>
    ensures walks { Walks side cursor.old result cursor.new }
    ensures value_le_side_limit { IfOk result (λ n. n ≤ side_limit) }
{
    let at = cursor.at;
    let n = cursor.word()?;
    cursor.check(side_ok(n), Reason::BadSide, at)?;
    Ok(n)
}

// A side that has to be its owner's.
#[tactic(auto, using(xcf_walk::proofs::Walks::steps), unfolding(crate::specs::Drawable::side_like))]
fn side_like(cursor: &mut Cursor, v: u32) -> Result<(), Refusal>
    ensures { Walks (side_like v) cursor.old result cursor.new }
{
    let at = cursor.at;
    let n = side(cursor)?;
    cursor.check(n == v, Reason::Disagrees, at)
}

#[tactic(auto, using(xcf_walk::proofs::Walks::steps), unfolding(crate::specs::Drawable::layer_type))]
fn layer_type(cursor: &mut Cursor, base: u32) -> Result<u32, Refusal>
    ensures { Walks (layer_type base) cursor.old result cursor.new }
{
    let at = cursor.at;
    let t = cursor.word()?;
    cursor.check(type_ok(base, t), Reason::Disagrees, at)?;
    Ok(t)
}

#[tactic(auto, using(xcf_walk::proofs::Walks::steps), unfolding(crate::specs::Drawable::fields))]
fn read_fields(cursor: &mut Cursor, width: Width, list: ListKind) -> Result<Fields, Refusal>
    ensures walks { Walks (fields (bytes_of width) (list_number list)) cursor.old result cursor.new }
    ensures fields_low { IfOk result (λ x. FieldsLow x (length cursor.old.file.now)) }
{
    let name = cursor.string()?;
    let place = cursor.at;
    let properties = cursor.properties(width.bytes(), list, 0)?;
    let hierarchy = pointer(cursor, width)?;
    Ok(Fields {
        name,
        list: place,
        properties,
        hierarchy,
    })
}

#[tactic(auto, using(xcf_walk::proofs::Walks::steps), unfolding(crate::specs::Drawable::layer))]
pub fn read_layer(cursor: &mut Cursor, pointer: Width, base: u32) -> Result<Layer, Refusal>
    ensures walks { Walks (layer (bytes_of pointer) base) cursor.old result cursor.new }
    ensures layer_low { IfOk result (λ x. LayerLow x (length cursor.old.file.now)) }
{
    let width = side(cursor)?;
    let height = side(cursor)?;
    let form = layer_type(cursor, base)?;
    let fields = read_fields(cursor, pointer, ListKind::Layer)?;
    let mask = cursor.pointer(pointer)?;
    Ok(Layer {
        width,
        height,
        form,
        fields,
        mask,
    })
}

#[tactic(auto, using(xcf_walk::proofs::Walks::steps), unfolding(crate::specs::Drawable::channel))]
pub fn read_channel(cursor: &mut Cursor, width: Width, o: Owner) -> Result<Fields, Refusal>
    ensures walks { Walks (channel (bytes_of width) o) cursor.old result cursor.new }
    ensures fields_low { IfOk result (λ x. FieldsLow x (length cursor.old.file.now)) }
{
    side_like(cursor, o.width)?;
    side_like(cursor, o.height)?;
    read_fields(cursor, width, ListKind::from(o.kind))
}
