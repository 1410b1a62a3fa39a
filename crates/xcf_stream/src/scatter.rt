// Bytes put into a pixel buffer at every `step`-th place. The loops keep the place: the library says nothing of what a slice holds
// after a loop over `iter_mut().step_by(step)`.
ghost use Rattle.std.specs.Prelude.{◌≡◌, ◌+◌, ◌*◌, length, replicate};
ghost use Rattle.xcf_operation.specs.Parts.{given};
ghost use Rattle.xcf_stream.specs.Parts.{scatter, StepRoom};

use xcf_operation::Bytes;

// `value`, `count` times, at `at` and every `step` bytes after it.
fn fill(value: u8, count: usize, pixels: &mut [u8], at: usize, step: usize) -> usize
    requires { StepRoom pixels.old at step count }
    ensures { (result ≡ at + step * count) × (pixels.new ≡ scatter pixels.old at step (replicate count value)) }
{
    let mut to = at;
    for _ in 0..count {
        pixels[to] = value;
        to += step;
    }
    to
}

// The bytes, at `at` and every `step` bytes after it.
fn copy(bytes: &[u8], pixels: &mut [u8], at: usize, step: usize) -> usize
    requires { StepRoom pixels.old at step (length bytes.now) }
    ensures { (result ≡ at + step * length bytes.now) × (pixels.new ≡ scatter pixels.old at step bytes.now) }
{
    let mut to = at;
    for byte in bytes {
        pixels[to] = *byte;
        to += step;
    }
    to
}

// `fill`, with a loop of its own for each depth of a pixel: the compiler makes a block fill of the first, and unrolls the others. (One
// match on the step for runs and copies together takes more instructions where operations are short.)
fn put_run(value: u8, count: usize, pixels: &mut [u8], at: usize, step: usize) -> usize
    requires { StepRoom pixels.old at step count }
    ensures { (result ≡ at + step * count) × (pixels.new ≡ scatter pixels.old at step (replicate count value)) }
{
    match step {
        1 => fill(value, count, pixels, at, 1),
        2 => fill(value, count, pixels, at, 2),
        3 => fill(value, count, pixels, at, 3),
        4 => fill(value, count, pixels, at, 4),
        _ => fill(value, count, pixels, at, step),
    }
}

// `copy`, with a loop of its own for each depth of a pixel.
fn put_copy(bytes: &[u8], pixels: &mut [u8], at: usize, step: usize) -> usize
    requires { StepRoom pixels.old at step (length bytes.now) }
    ensures { (result ≡ at + step * length bytes.now) × (pixels.new ≡ scatter pixels.old at step bytes.now) }
{
    match step {
        1 => copy(bytes, pixels, at, 1),
        2 => copy(bytes, pixels, at, 2),
        3 => copy(bytes, pixels, at, 3),
        4 => copy(bytes, pixels, at, 4),
        _ => copy(bytes, pixels, at, step),
    }
}

// What an operation gives, at `at` and every `step` bytes after it.
pub(crate) fn put(bytes: Bytes<'_>, pixels: &mut [u8], at: usize, step: usize) -> usize
    requires { StepRoom pixels.old at step (length (given bytes)) }
    ensures { (result ≡ at + step * length (given bytes.entry)) × (pixels.new ≡ scatter pixels.old at step (given bytes.entry)) }
{
    match bytes {
        Bytes::Run { value, count } => put_run(value, count, pixels, at, step),
        Bytes::Copy(bytes) => put_copy(bytes, pixels, at, step),
    }
}
