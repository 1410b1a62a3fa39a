// Streams of a size, one behind the other: measured and encoded.
ghost use Rattle.std.specs.Prelude.{◌≡◌, ◌+◌, ◌*◌, ◌≤◌, length};
ghost use Rattle.xcf_numbers.specs.Limit.{depth_limit, stream_limit};

use xcf_numbers::reason::Reason;
use xcf_segment::measure::encoded_size;
use xcf_segment::put::put_stream;
use xcf_store::output::Output;

// `count` streams of `size` bytes each, of those that are left.
#[derive(Clone, Copy)]
pub(crate) struct Streams<'a> {
    rest: &'a [u8],
    size: usize,
    count: usize,
    ghost room: { count * size ≤ length rest.now },
    ghost short: { size ≤ stream_limit },
    ghost few: { count ≤ depth_limit },
}

impl<'a> Iterator for Streams<'a> {
    ghost use Rattle.std.specs.Iterator.{YieldsFirstRef, item_count};
    ghost use Rattle.xcf_encode.specs.Streams.{streams_left};

    type Item = &'a [u8];

    ghost next_gives = { YieldsFirstRef streams_left };

    ghost remaining = { item_count streams_left };

    fn next(&mut self) -> Option<&'a [u8]> {
        if self.count == 0 {
            return None;
        }
        let (stream, rest) = self.rest.split_at(self.size);
        self.rest = rest;
        self.count -= 1;
        Some(stream)
    }
}

impl<'a> Streams<'a> {
    ghost use mathlib.Core.List.{flat_map};
    ghost use Rattle.std.specs.Prelude.{leb};
    ghost use Rattle.xcf_encode.specs.Parts.{parts, StreamsRoom, most_bytes, EncodedInto};
    ghost use Rattle.xcf_encode.specs.Streams.{streams_left};
    ghost use Rattle.xcf_segment.specs.Segment.{encode_stream};
    ghost use Rattle.xcf_store.specs.Output.{Stores};

    pub(crate) fn new(planar: &'a [u8], size: usize, count: usize) -> Streams<'a>
        requires { StreamsRoom planar.now size count }
        ensures { streams_left result ≡ parts count 0 size planar.now }
    {
        Streams {
            rest: planar,
            size,
            count,
        }
    }

    // The most bytes that the streams can be written in.
    fn most_bytes(self) -> usize
        ensures { result ≡ self.entry.count * most_bytes self.entry.size }
    {
        let n = self.size;
        self.count * (n + 3 + 2 * (n / 131))
    }

    // The length of the streams' encodings.
    fn encoded_size(self) -> usize
        ensures { result ≡ length (flat_map encode_stream (streams_left self.entry)) }
    {
        let mut size = 0;
        for stream in self {
            size += encoded_size(stream);
        }
        size
    }

    // Whether the streams' encodings fit; they are measured only where the most that they can take does not.
    fn fit(self, room: usize) -> bool
        ensures { result ≡ leb (length (flat_map encode_stream (streams_left self.entry))) room }
    {
        self.most_bytes() <= room || self.encoded_size() <= room
    }

    // The streams' encodings, one behind the other.
    fn put(self, output: &mut Output<'_>)
        requires { output.old.at + length (flat_map encode_stream (streams_left self)) ≤ length output.old.bytes.now }
        ensures stores { Stores output.old (flat_map encode_stream (streams_left self.entry)) output.new }
        ensures same { output.new.bytes.ghost_name ≡ output.old.bytes.ghost_name }
    {
        for stream in self {
            put_stream(stream, output);
        }
    }

    // The streams' encodings at the output's start, where they fit.
    pub(crate) fn encode(self, output: &mut [u8]) -> Result<usize, Reason>
        ensures { EncodedInto (flat_map encode_stream (streams_left self.entry)) output.old result output.new }
    {
        if !self.fit(output.len()) {
            return Err(Reason::NoRoom);
        }
        let mut front = Output {
            bytes: output,
            at: 0,
        };
        self.put(&mut front);
        Ok(front.at)
    }
}
