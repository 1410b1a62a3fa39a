// The streams of a tile: one for each byte of the pixel.
ghost use Rattle.std.specs.Prelude.{◌≡◌, ◌*◌, ◌≤◌, ◌<◌, length};
ghost use Rattle.xcf_numbers.specs.Limit.{depth_limit, stream_limit};

use crate::streams::Streams;
use xcf_numbers::limit::TILE_SIZE;
use xcf_numbers::reason::Reason;

// `count` pixels of `depth` bytes each.
#[derive(Clone, Copy)]
pub(crate) struct Pixels<'a> {
    bytes: &'a [u8],
    count: usize,
    depth: usize,
    ghost exact: { length bytes.now ≡ count * depth },
    ghost short: { count ≤ stream_limit },
    ghost deep: { depth ≤ depth_limit },
}

impl<'a> Pixels<'a> {
    ghost use Rattle.xcf_encode.specs.Tile.{plane, planes, encode_tile};
    ghost use Rattle.xcf_encode.specs.Parts.{parts, EncodedInto};

    pub(crate) fn new(bytes: &'a [u8], count: usize, depth: usize) -> Pixels<'a>
        requires { (length bytes.now ≡ count * depth) × ((count ≤ stream_limit) × (depth ≤ depth_limit)) }
        ensures { (result.bytes.now ≡ bytes.now) × ((result.count ≡ count) × (result.depth ≡ depth)) }
    {
        Pixels {
            bytes,
            count,
            depth,
        }
    }

    // Byte k of each pixel.
    fn gather_plane(self, k: usize, stream: &mut [u8])
        requires { (k < self.depth) × (length stream.old ≡ self.count) }
        ensures { stream.new ≡ plane self.entry.count k self.entry.depth self.entry.bytes.now }
    {
        for i in 0..stream.len() {
            stream[i] = self.bytes[k + i * self.depth];
        }
    }

    // The tile's streams, one behind the other.
    fn gather(self, planar: &mut [u8])
        requires { self.depth * self.count ≤ length planar.old }
        ensures { parts self.entry.depth 0 self.entry.count planar.new ≡ planes self.entry.depth 0 self.entry.count self.entry.depth self.entry.bytes.now }
    {
        for k in 0..self.depth {
            let at = k * self.count;
            self.gather_plane(k, &mut planar[at..at + self.count]);
        }
    }

    // The encoding, with room for the streams.
    fn encode_within(self, planar: &mut [u8], output: &mut [u8]) -> Result<usize, Reason>
        requires { self.depth * self.count ≤ length planar.old }
        ensures { EncodedInto (encode_tile self.entry.count self.entry.depth self.entry.bytes.now) output.old result output.new }
    {
        self.gather(planar);
        Streams::new(planar, self.count, self.depth).encode(output)
    }

    // The encoding, with room made for the streams.
    fn encode_gathered(self, output: &mut [u8]) -> Result<usize, Reason>
        ensures { EncodedInto (encode_tile self.entry.count self.entry.depth self.entry.bytes.now) output.old result output.new }
    {
        let mut planar = [0u8; TILE_SIZE];
        self.encode_within(&mut planar, output)
    }

    // The encoding. Pixels of one byte are a stream as they stand.
    pub(crate) fn encode(self, output: &mut [u8]) -> Result<usize, Reason>
        ensures { EncodedInto (encode_tile self.entry.count self.entry.depth self.entry.bytes.now) output.old result output.new }
    {
        if self.depth == 1 {
            return Streams::new(self.bytes, self.count, 1).encode(output);
        }
        self.encode_gathered(output)
    }
}
