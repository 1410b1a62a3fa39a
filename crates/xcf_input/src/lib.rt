// A buffer filled with what is read.
#![tactic(auto)]

ghost use Rattle.std.specs.Prelude.{◌≤◌, length};

use std::io::Read;

// Reads until the buffer is full, the input ends or a read fails; how many bytes then stand at the buffer's start.
pub fn read_full<R: Read>(from: &mut R, to: &mut [u8]) -> usize
    ensures { result ≤ length to.new }
{
    let mut n = 0;
    while n < to.len() {
        match from.read(&mut to[n..]) {
            Ok(0) | Err(_) => return n,
            Ok(got) => n += got,
        }
    }
    n
}
