// The flags of rows.
ghost use Rattle.std.specs.Prelude.{◌≡◌};
ghost use Rattle.xcf_numbers.specs.Flag.{flag_of, flag_set};

pub const VISIBLE: u32 = 1;

// A layer applies its mask.
pub const APPLY: u32 = 2;

pub const SELECTION: u32 = 4;

pub const ACTIVE: u32 = 8;

pub const GROUP: u32 = 16;

// The name is not well-formed UTF-8.
pub const NOT_UTF8: u32 = 32;

// A flag as a number: 1 where it is set, else 0.
pub fn flag_of(flags: u32, bit: u32) -> u32
    ensures { result ≡ flag_of flags bit }
{
    if bit == 0 { 0 } else { flags / bit % 2 }
}

// Whether a flag is set.
pub fn flag_set(flags: u32, bit: u32) -> bool
    ensures { result ≡ flag_set flags bit }
{
    flag_of(flags, bit) == 1
}
