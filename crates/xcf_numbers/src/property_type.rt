// The types of properties.
pub const END: u32 = 0;

pub const COLOUR_MAP: u32 = 1;

pub const ACTIVE_LAYER: u32 = 2;

pub const ACTIVE_CHANNEL: u32 = 3;

pub const SELECTION: u32 = 4;

pub const FLOATING: u32 = 5;

pub const OPACITY: u32 = 6;

pub const MODE: u32 = 7;

pub const VISIBLE: u32 = 8;

pub const APPLY: u32 = 11;

pub const OFFSETS: u32 = 15;

pub const COMPRESSION: u32 = 17;

pub const GROUP_ITEM: u32 = 29;
