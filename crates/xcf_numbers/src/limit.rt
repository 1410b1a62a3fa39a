// The limits of the format and of this library.
// The most bytes of a file, so that every place in it fits a row.
pub const FILE_LIMIT: usize = 1073741824;

// The most pixels of a canvas's or drawable's side.
pub const SIDE_LIMIT: u32 = 16384;

// The most bytes of a pixel.
pub const DEPTH_LIMIT: u32 = 4;

// The last type of a layer, and the last that is written.
pub const TYPE_LIMIT: u32 = 5;

pub const WRITTEN_TYPE_LIMIT: u32 = 3;

// The most that an opacity can be.
pub const FULL_OPACITY: u32 = 255;

// The first mode that only version 2 has, and the last.
pub const NEW_MODE: u32 = 19;

pub const MODE_LIMIT: u32 = 21;

// The most colours of a map.
pub const COLOUR_LIMIT: u32 = 256;

// The most layers and the most channels of an image.
pub const LAYER_LIMIT: u32 = 48;

pub const CHANNEL_LIMIT: u32 = 32;

// The most bytes of a written name.
pub const NAME_LIMIT: u32 = 1024;

// A row's numbers, a table's rows, and a table's numbers.
pub const ROW_SIZE: usize = 16;

pub const TABLE_ROWS: u32 = 128;

pub const TABLE_SIZE: usize = TABLE_ROWS as usize * ROW_SIZE;

// A tile's side, and the most pixels and bytes that a tile has.
pub const TILE_SIDE: u32 = 64;

pub const STREAM_LIMIT: usize = TILE_SIDE as usize * TILE_SIDE as usize;

pub const TILE_SIZE: usize = STREAM_LIMIT * DEPTH_LIMIT as usize;

// The most bytes of an encoded tile.
pub const ENCODED_SIZE: usize = 16644;

// A window is cut at this many bytes.
pub const WINDOW_LIMIT: usize = 24576;

// The places of a table's drawables, and of their end.
pub const PLACES_SIZE: usize = TABLE_ROWS as usize + 1;
