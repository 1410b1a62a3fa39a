// The versions of files that rules ask for by number.
// The first, which has no indexed images.
pub const FIRST: u32 = 0;

// That with a precision word, and with pointers of eight bytes.
pub const WIDE: u32 = 11;
