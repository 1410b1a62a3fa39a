// The canvas, and what a drawable's sides and type may be.
ghost use Rattle.std.specs.Prelude.{◌≡◌};
ghost use Rattle.xcf_table.specs.Canvas.{side_ok, type_ok, depth_of};

use xcf_numbers::limit::{SIDE_LIMIT, TYPE_LIMIT};

#[derive(Clone, Copy)]
pub struct Canvas {
    pub width: u32,
    pub height: u32,
    pub base: u32,
}

pub fn side_ok(n: u32) -> bool
    ensures { result ≡ side_ok n }
{
    1 <= n && n <= SIDE_LIMIT
}

pub fn type_ok(base: u32, t: u32) -> bool
    ensures { result ≡ type_ok base t }
{
    t <= TYPE_LIMIT && t / 2 == base
}

const DEPTHS: [u32; 6] = [3, 4, 1, 2, 1, 2];

pub fn depth_of(t: u32) -> u32
    ensures { result ≡ depth_of t }
{
    DEPTHS.get(t as usize).copied().unwrap_or(0)
}
