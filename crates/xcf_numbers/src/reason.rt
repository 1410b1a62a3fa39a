// Why a call, a file or a row is refused.
ghost use Rattle.xcf_numbers.specs.Reason.{NumberOf};

// Each reason has a number that C sees (RULES, "Numbers").
#[derive(Clone, Copy, Debug, PartialEq, Eq)]
pub enum Reason {
    // A field, string or payload does not lie in the file whole.
    PastEnd = 1,
    // The file does not begin with "gimp xcf ".
    NotXcf = 2,
    // The version's tag is not known.
    BadVersion = 3,
    // A side is outside its range.
    BadSide = 4,
    // A base type that the version does not have, or that is not written.
    BadBase = 5,
    // The length of a property does not fit its type.
    BadLength = 6,
    // A payload holds a value that is not allowed, or an indexed image has no colour map.
    BadContent = 7,
    // A layer or channel over the limit.
    TooMany = 8,
    // The pointer to a hierarchy, or to its first level, is 0.
    NoPointer = 9,
    // A type, side or depth is not what its owner says.
    Disagrees = 10,
    // A buffer is lent with a length that does not fit.
    WrongBuffer = 11,
    // The last of a string's bytes is not zero.
    UnendedString = 12,
    // A tile pointer, or the one that closes them, breaks its rule.
    BadTilePointer = 13,
    // A row, tile, compression or size of pointers that cannot be decoded or encoded.
    Unusable = 14,
    // The file is too long.
    TooLong = 15,
    // A layer has the property of a floating selection.
    Floating = 16,
    // A row that cannot be written.
    BadRow = 17,
    // What is to be written exceeds the lent output, or a file the limit.
    NoRoom = 18,
    // Pixels are stored in a precision that is not read.
    BadPrecision = 25,
}

impl From<Reason> for u64 {
    ghost from_gives = { NumberOf };

    fn from(reason: Reason) -> u64 {
        reason as u64
    }
}

// A reason, and the place that it is found at.
#[derive(Clone, Copy, Debug, PartialEq, Eq)]
pub struct Refusal {
    pub reason: Reason,
    pub place: usize,
}
