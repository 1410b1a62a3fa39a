// A drawable's hierarchy and its first level.
ghost use Rattle.std.specs.Prelude.{◌≤◌, length, IfOk};
ghost use Rattle.xcf_numbers.specs.Limit.{side_limit};
ghost use Rattle.xcf_store.specs.Width.{bytes_of};
ghost use Rattle.xcf_walk.specs.Cursor.{Walks};
ghost use Rattle.xcf_parse.specs.Hierarchy.{agrees, pointer, rest, hierarchy};

use xcf_grid::tile_count;
use xcf_numbers::reason::{Reason, Refusal};
use xcf_store::pointer::Width;
use xcf_walk::cursor::Cursor;

// A word that has to be v.
#[tactic(auto, using(xcf_walk::proofs::Walks::steps), unfolding(crate::specs::Hierarchy::agrees))]
fn agrees(cursor: &mut Cursor, v: u32) -> Result<(), Refusal>
    ensures { Walks (agrees v) cursor.old result cursor.new }
{
    let at = cursor.at;
    let n = cursor.word()?;
    cursor.check(n == v, Reason::Disagrees, at)
}

// A pointer that is not 0.
#[tactic(auto, using(xcf_walk::proofs::Walks::steps), unfolding(crate::specs::Hierarchy::pointer))]
pub(crate) fn pointer(cursor: &mut Cursor, width: Width) -> Result<usize, Refusal>
    ensures { Walks (pointer (bytes_of width)) cursor.old result cursor.new }
{
    let at = cursor.at;
    let p = cursor.pointer(width)?;
    cursor.check(p != 0, Reason::NoPointer, at)?;
    Ok(p)
}

// Further pointers up to a 0.
fn rest(cursor: &mut Cursor, width: Width) -> Result<(), Refusal>
    ensures { Walks (rest (bytes_of width)) cursor.old result cursor.new }
{
    while cursor.pointer(width)? != 0 {}
    Ok(())
}

// A hierarchy and its first level, for a drawable of these sides and this depth: the place of the first tile pointer.
#[tactic(auto, using(xcf_walk::proofs::Walks::steps), unfolding(crate::specs::Hierarchy::hierarchy))]
pub fn hierarchy(
    cursor: &mut Cursor,
    pointers: Width,
    width: u32,
    height: u32,
    depth: u32,
) -> Result<usize, Refusal>
    requires { (width ≤ side_limit) × (height ≤ side_limit) }
    ensures walks { Walks (hierarchy (bytes_of pointers) width height depth) cursor.old result cursor.new }
    ensures place_in_bounds { IfOk result (λ p. p ≤ length cursor.old.file.now) }
{
    agrees(cursor, width)?;
    agrees(cursor, height)?;
    agrees(cursor, depth)?;
    let level = pointer(cursor, pointers)?;
    rest(cursor, pointers)?;
    cursor.jump(level);
    agrees(cursor, width)?;
    agrees(cursor, height)?;
    let place = cursor.at;
    let count = tile_count(width, height) as u32;
    cursor.tiles(pointers, count)?;
    Ok(place)
}
