// The base types of images.
pub const GREY: u32 = 1;

pub const INDEXED: u32 = 2;
