// A record of the input, with numbers high byte first: kind (0 decode a tile, 1 encode a tile, all others encode a stream),
// width, height, depth and compression, a byte each; the length of the source and the length of the lent buffer, two bytes
// each; the source (a window, pixels or a stream).
ghost use Rattle.std.specs.Prelude.{length};
ghost use Rattle.std.specs.Iterator.{at_most};

// The call to make.
#[derive(Clone, Copy)]
pub(crate) enum Kind {
    Decode,
    Encode,
    EncodeStream,
}

impl From<u8> for Kind {
    fn from(kind: u8) -> Kind {
        match kind {
            0 => Kind::Decode,
            1 => Kind::Encode,
            _ => Kind::EncodeStream,
        }
    }
}

// A call, what it is given, and the length of the buffer that it is lent.
#[derive(Clone, Copy)]
pub(crate) struct Record<'a> {
    pub kind: Kind,
    pub width: u32,
    pub height: u32,
    pub depth: u32,
    pub compression: u32,
    pub source: &'a [u8],
    pub lent: usize,
}

// The records of an input, up to the first that is not whole.
#[derive(Drop)]
pub(crate) struct Records<'a> {
    rest: &'a [u8],
}

impl<'a> Records<'a> {
    pub(crate) fn of(input: &'a [u8]) -> Records<'a> {
        Records { rest: input }
    }
}

impl<'a> Iterator for Records<'a> {
    type Item = Record<'a>;

    ghost remaining = { λ s. at_most (length s.rest.now) };

    fn next(&mut self) -> Option<Record<'a>> {
        let (head, rest) = self.rest.split_first_chunk::<9>()?;
        let [
            kind,
            width,
            height,
            depth,
            compression,
            length,
            low_length,
            lent,
            low_lent,
        ] = *head;
        let size = u16::from_be_bytes([length, low_length]);
        let (source, rest) = rest.split_at_checked(usize::from(size))?;
        self.rest = rest;
        Some(Record {
            kind: Kind::from(kind),
            width: u32::from(width),
            height: u32::from(height),
            depth: u32::from(depth),
            compression: u32::from(compression),
            source,
            lent: usize::from(u16::from_be_bytes([lent, low_lent])),
        })
    }
}
