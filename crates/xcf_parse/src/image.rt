// What stands in a file before its pointers.
ghost use Rattle.std.specs.Prelude.{◌≡◌, ◌≤◌, IfOk};
ghost use Rattle.xcf_numbers.specs.Limit.{side_limit};
ghost use Rattle.xcf_store.specs.Width.{bytes_of};
ghost use Rattle.xcf_walk.specs.Cursor.{Walks};
ghost use Rattle.xcf_parse.specs.Image.{pointer_size, base_ok, base_type, precision, head};

use crate::drawable::side;
use crate::header::header;
use xcf_numbers::precision::EIGHT_BIT_GAMMA;
use xcf_numbers::reason::{Reason, Refusal};
use xcf_numbers::{base, version};
use xcf_property::ListKind;
use xcf_store::pointer::Width;
use xcf_walk::cursor::Cursor;

// What stands before the pointers. The version and the base type are numbers, as what C is told has them.
#[derive(Clone, Copy)]
pub struct Head {
    pub version: u32,
    pub width: u32,
    pub height: u32,
    pub base: u32,
    pub compression: u32,
}

// The width of pointers in a file of this version.
pub fn pointer_width(version: u32) -> Width
    ensures { bytes_of result ≡ pointer_size version }
{
    if version == version::WIDE {
        Width::Wide
    } else {
        Width::Narrow
    }
}

#[tactic(auto, unfolding(crate::specs::Image::base_ok))]
fn base_ok(version: u32, base: u32) -> bool
    ensures { result ≡ base_ok version base }
{
    if version == version::FIRST {
        base < base::INDEXED
    } else {
        base <= base::INDEXED
    }
}

#[tactic(auto, using(xcf_walk::proofs::Walks::steps), unfolding(crate::specs::Image::base_type))]
fn base_type(cursor: &mut Cursor, version: u32) -> Result<u32, Refusal>
    ensures { Walks (base_type version) cursor.old result cursor.new }
{
    let at = cursor.at;
    let base = cursor.word()?;
    cursor.check(base_ok(version, base), Reason::BadBase, at)?;
    Ok(base)
}

// The precision word, where the version has one.
#[tactic(auto, using(xcf_walk::proofs::Walks::steps), unfolding(crate::specs::Image::precision))]
fn precision(cursor: &mut Cursor, version: u32) -> Result<(), Refusal>
    ensures { Walks (precision version) cursor.old result cursor.new }
{
    if version != version::WIDE {
        return Ok(());
    }
    let at = cursor.at;
    let n = cursor.word()?;
    cursor.check(n == EIGHT_BIT_GAMMA, Reason::BadPrecision, at)
}

#[tactic(auto, using(xcf_walk::proofs::Walks::steps), unfolding(crate::specs::Image::head))]
pub fn read_head(cursor: &mut Cursor) -> Result<Head, Refusal>
    ensures walks { Walks head cursor.old result cursor.new }
    ensures width_le_side_limit { IfOk result (λ h. (h.width ≤ side_limit) × (h.height ≤ side_limit)) }
{
    let version = header(cursor)?;
    let width = side(cursor)?;
    let height = side(cursor)?;
    let base = base_type(cursor, version)?;
    precision(cursor, version)?;
    let pointer = pointer_width(version);
    // The list of an indexed image must hold a colour map.
    let unmapped = u32::from(base == base::INDEXED);
    let p = cursor.properties(pointer.bytes(), ListKind::Image, unmapped)?;
    Ok(Head {
        version,
        width,
        height,
        base,
        compression: p.compression,
    })
}
