// The length of a stream's encoding.
ghost use Rattle.std.specs.Prelude.{◌≡◌, ◌≤◌, length};
ghost use Rattle.xcf_numbers.specs.Limit.{stream_limit};
ghost use Rattle.xcf_segment.specs.Segment.{size_of, segment_bytes, encode_stream};
ghost use Rattle.xcf_segment.specs.Parts.{head_size, segment_of};

use crate::segment::{Segment, Segments};

// The length of an opcode with its length bytes.
fn head_size(count: usize) -> usize
    ensures { result ≡ head_size count }
{
    if count <= 127 { 1 } else { 3 }
}

// The length of a segment's operation.
fn segment_size(segment: Segment<'_>) -> usize
    requires { size_of (segment_of segment) ≤ stream_limit }
    ensures { result ≡ length (segment_bytes (segment_of segment.entry)) }
{
    match segment {
        Segment::Run { count, .. } => head_size(count) + 1,
        Segment::Copy(bytes) => head_size(bytes.len()) + bytes.len(),
    }
}

// The length of the stream's encoding.
pub fn encoded_size(stream: &[u8]) -> usize
    requires { length stream.now ≤ stream_limit }
    ensures { result ≡ length (encode_stream stream.now) }
{
    let mut size = 0;
    for segment in Segments::new(stream) {
        size += segment_size(segment);
    }
    size
}
