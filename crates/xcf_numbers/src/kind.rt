// The kinds of rows.
pub const UNUSED: u32 = 0;

pub const LAYER: u32 = 1;

pub const MASK: u32 = 2;

pub const CHANNEL: u32 = 3;
