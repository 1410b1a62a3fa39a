// The segments that a stream is written as.
ghost use Rattle.std.specs.Prelude.{◌≡◌, ◌≤◌, length, leb};
ghost use Rattle.std.specs.Iterator.{YieldsFirstBy, item_count};
ghost use Rattle.xcf_segment.specs.Segment.{leading, equal_bytes, copied_bytes};
ghost use Rattle.xcf_segment.specs.Parts.{segment_of, segments_left};

// A run of `count` bytes `value`, or bytes that are copied.
#[derive(Clone, Copy)]
pub(crate) enum Segment<'a> {
    Run { count: usize, value: u8 },
    Copy(&'a [u8]),
}

// How many bytes `value` the stream begins with.
fn leading(stream: &[u8], value: u8) -> usize
    ensures { result ≡ leading value stream.now }
{
    stream.iter().take_while(|b| **b == value).count()
}

// Whether the stream begins with three equal bytes.
fn three_equal(stream: &[u8]) -> bool
    ensures { result ≡ leb 3 (equal_bytes stream.now) }
{
    match stream {
        [a, b, c, ..] => a == b && b == c,
        _ => false,
    }
}

// How many bytes come before the next three equal ones, or the end. Where the second and the third byte differ, three equal ones
// start at neither of the first two, so that the index goes on by two.
fn copied_bytes(stream: &[u8]) -> usize
    ensures value { result ≡ copied_bytes stream.now }
    ensures inside { result ≤ length stream.now }
{
    let mut i = 0;
    while i + 2 < stream.len() {
        if stream[i + 1] != stream[i + 2] {
            i += 2;
        } else {
            if stream[i] == stream[i + 1] {
                return i;
            }
            i += 1;
        }
    }
    stream.len()
}

// What is left of a stream, as segments.
#[derive(Drop)]
pub(crate) struct Segments<'a> {
    rest: &'a [u8],
}

impl<'a> Segments<'a> {
    pub(crate) fn new(stream: &'a [u8]) -> Segments<'a>
        ensures { result.rest.now ≡ stream.now }
    {
        Segments { rest: stream }
    }
}

impl<'a> Iterator for Segments<'a> {
    type Item = Segment<'a>;

    ghost next_gives = { YieldsFirstBy segment_of segments_left };

    ghost remaining = { item_count segments_left };

    fn next(&mut self) -> Option<Segment<'a>> {
        let value = *self.rest.first()?;
        if three_equal(self.rest) {
            let count = leading(self.rest, value);
            let (_, rest) = self.rest.split_at(count);
            self.rest = rest;
            return Some(Segment::Run { count, value });
        }
        let (copied, rest) = self.rest.split_at(copied_bytes(self.rest));
        self.rest = rest;
        Some(Segment::Copy(copied))
    }
}
