// How pixels are stored.
// Eight bits, with a gamma: as in all versions that have no precision word.
pub const EIGHT_BIT_GAMMA: u32 = 150;
