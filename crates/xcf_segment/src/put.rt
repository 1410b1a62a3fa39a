// Operations stored into the output.
ghost use Rattle.std.specs.Prelude.{[], ◌∷◌, ◌≡◌, ◌+◌, ◌-◌, ◌*◌, ◌/◌, ◌%◌, ◌≤◌, ◌<◌, length};
ghost use Rattle.xcf_numbers.specs.Limit.{stream_limit};
ghost use Rattle.xcf_segment.specs.Segment.{head_bytes, size_of, segment_bytes, encode_stream, run_of, copy_of};
ghost use Rattle.xcf_segment.specs.Parts.{segment_of};
ghost use Rattle.xcf_store.specs.Output.{Stores};

use crate::segment::{Segment, Segments};
use xcf_store::output::Output;

fn put_long_head(output: &mut Output<'_>, opcode: u8, count: usize)
    requires { (output.old.at + 3 ≤ length output.old.bytes.now) × (count ≤ stream_limit) }
    ensures stores { Stores output.old (opcode ∷ count / 256 ∷ count % 256 ∷ []) output.new }
    ensures same { output.new.bytes.ghost_name ≡ output.old.bytes.ghost_name }
{
    let [high, low] = (count as u16).to_be_bytes();
    output.bytes(&[opcode, high, low]);
}

// A run of `count` bytes `value`.
fn put_run(output: &mut Output<'_>, count: usize, value: u8)
    requires { (0 < count) × ((count ≤ stream_limit) × (output.old.at + length (segment_bytes (run_of count value)) ≤ length output.old.bytes.now)) }
    ensures stores { Stores output.old (segment_bytes (run_of count value)) output.new }
    ensures same { output.new.bytes.ghost_name ≡ output.old.bytes.ghost_name }
{
    if count <= 127 {
        output.byte((count - 1) as u8);
        output.byte(value);
    } else {
        put_long_head(output, 127, count);
        output.byte(value);
    }
}

fn put_copy_head(output: &mut Output<'_>, count: usize)
    requires { (0 < count) × ((count ≤ stream_limit) × (output.old.at + length (head_bytes count (256 - count) 128) ≤ length output.old.bytes.now)) }
    ensures stores { Stores output.old (head_bytes count (256 - count) 128) output.new }
    ensures same { output.new.bytes.ghost_name ≡ output.old.bytes.ghost_name }
{
    if count <= 127 {
        output.byte((256 - count) as u8);
    } else {
        put_long_head(output, 128, count);
    }
}

// The bytes, copied.
fn put_copy(output: &mut Output<'_>, bytes: &[u8])
    requires { (0 < length bytes.now) × ((length bytes.now ≤ stream_limit) × (output.old.at + length (segment_bytes (copy_of bytes.now)) ≤ length output.old.bytes.now)) }
    ensures stores { Stores output.old (segment_bytes (copy_of bytes.now)) output.new }
    ensures same { output.new.bytes.ghost_name ≡ output.old.bytes.ghost_name }
{
    put_copy_head(output, bytes.len());
    output.bytes(bytes);
}

// The segment's operation.
fn put_segment(output: &mut Output<'_>, segment: Segment<'_>)
    requires some { 0 < size_of (segment_of segment) }
    requires short { size_of (segment_of segment) ≤ stream_limit }
    requires room { output.old.at + length (segment_bytes (segment_of segment)) ≤ length output.old.bytes.now }
    ensures stores { Stores output.old (segment_bytes (segment_of segment.entry)) output.new }
    ensures same { output.new.bytes.ghost_name ≡ output.old.bytes.ghost_name }
{
    match segment {
        Segment::Run { count, value } => put_run(output, count, value),
        Segment::Copy(bytes) => put_copy(output, bytes),
    }
}

// The stream's encoding.
pub fn put_stream(stream: &[u8], output: &mut Output<'_>)
    requires short { length stream.now ≤ stream_limit }
    requires room { output.old.at + length (encode_stream stream.now) ≤ length output.old.bytes.now }
    ensures stores { Stores output.old (encode_stream stream.now) output.new }
    ensures same { output.new.bytes.ghost_name ≡ output.old.bytes.ghost_name }
{
    for segment in Segments::new(stream) {
        put_segment(output, segment);
    }
}
