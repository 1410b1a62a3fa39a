// The streams of an encoded tile, decoded into its pixels.
#![tactic(auto)]

mod scatter;

ghost use Rattle.std.specs.Prelude.{◌≡◌};
ghost use Rattle.xcf_numbers.specs.Fault.{mark_of_any};
ghost use Rattle.xcf_stream.specs.Parts.{Plane, Streamed, StreamedAll, Sized};

use crate::scatter::put;
use xcf_numbers::fault::Fault;
use xcf_operation::operation_at;

// The place behind, or that of the operation that fails, with its fault; and the operations carried out in full. Place and count
// stand beside a fault too, so this is no Result.
#[derive(Clone, Copy)]
pub struct StreamEnd {
    pub fault: Option<Fault>,
    pub at: usize,
    pub operations: usize,
}

impl StreamEnd {
    // The mark of what ended so, 0 where nothing failed.
    pub fn mark(&self) -> u8
        ensures { result ≡ mark_of_any self.now.fault }
    {
        match self.fault {
            None => 0,
            Some(fault) => fault as u8,
        }
    }
}

// The stream of n bytes at `from`, put into the pixels at k and every `depth` bytes after it.
fn stream(
    window: &[u8],
    from: usize,
    n: usize,
    depth: usize,
    k: usize,
    pixels: &mut [u8],
) -> StreamEnd
    requires { Plane window.now from n depth k pixels.old }
    ensures { Streamed window.now from n depth k pixels.old result pixels.new }
{
    let mut at = from;
    let mut left = n;
    let mut to = k;
    let mut operations: usize = 0;
    while 0 < left {
        match operation_at(window, at, left) {
            Err(fault) => {
                return StreamEnd {
                    fault: Some(fault),
                    at,
                    operations,
                };
            }
            Ok(operation) => {
                to = put(operation.bytes, pixels, to, depth);
                left -= operation.bytes.len();
                at = operation.next;
                operations += 1;
            }
        }
    }
    StreamEnd {
        fault: None,
        at,
        operations,
    }
}

// A stream of n bytes for each byte of the pixel.
pub fn streams(window: &[u8], n: usize, depth: usize, pixels: &mut [u8]) -> StreamEnd
    requires { Sized n depth pixels.old }
    ensures { StreamedAll window.now n depth pixels.old result pixels.new }
{
    let mut at = 0;
    let mut operations: usize = 0;
    for k in 0..depth {
        let end = stream(window, at, n, depth, k, pixels);
        at = end.at;
        operations += end.operations;
        if end.fault.is_some() {
            return StreamEnd {
                fault: end.fault,
                at,
                operations,
            };
        }
    }
    StreamEnd {
        fault: None,
        at,
        operations,
    }
}
