// Pointers that rise, read without a cursor: what lies in the file is known before the first is read.
ghost use Rattle.std.specs.Prelude.{◌≡◌, ◌+◌, ◌*◌, ◌/◌, ◌≤◌, ◌<◌, length};
ghost use Rattle.xcf_store.specs.Rising.{rising};
ghost use Rattle.xcf_store.specs.Parts.{RisingLeft};
ghost use Rattle.xcf_store.specs.Width.{bytes_of};

use crate::pointer::{Width, number_at};

// How many pointers rise, and the last of them.
#[derive(Drop)]
pub struct Rising {
    pub count: u32,
    pub last: usize,
}

// How many pointers go into n bytes. To divide by a constant is faster.
fn whole_pointers(n: usize, width: Width) -> usize
    ensures { result ≡ n / bytes_of width }
{
    match width {
        Width::Narrow => n / 4,
        Width::Wide => n / 8,
    }
}

// How many pointers from a place on lie in the file, at most n.
fn pointers_in(file: &[u8], at: usize, n: u32, width: Width) -> u32
    ensures { (result ≤ n) × (1 ≤ result → at + bytes_of width * result ≤ length file.now) × (result < n → length file.now < at + bytes_of width * result + bytes_of width) }
{
    if file.len() < at {
        return 0;
    }
    let whole = whole_pointers(file.len() - at, width);
    if whole < (n as usize) {
        whole as u32
    } else {
        n
    }
}

// Of n pointers that lie in the file, the whole pairs that rise: two are tested in one turn of the loop.
#[inline(always)]
fn pairs_by(file: &[u8], at: usize, n: u32, width: Width) -> Rising
    requires { 1 ≤ n → at + bytes_of width * n ≤ length file.now }
    ensures { RisingLeft (bytes_of width) file.now at n result.count result.last }
{
    let end = file.len();
    let size = width.bytes();
    let pairs = n / 2;
    let mut last: usize = 0;
    for pair in 0..pairs {
        let place = at + size * (2 * pair as usize);
        let first = number_at(file, place, width);
        let second = number_at(file, place + size, width);
        // By `|`: a branch for each test would cost more than the tests.
        if (first <= last) | (second <= first) | (end <= second) {
            return Rising {
                count: 2 * pair,
                last,
            };
        }
        last = second;
    }
    Rising {
        count: 2 * pairs,
        last,
    }
}

// `pairs_by`, with a loop of its own for each width: a place that goes on by a constant is faster.
fn rising_pairs(file: &[u8], at: usize, n: u32, width: Width) -> Rising
    requires { 1 ≤ n → at + bytes_of width * n ≤ length file.now }
    ensures { RisingLeft (bytes_of width) file.now at n result.count result.last }
{
    match width {
        Width::Narrow => pairs_by(file, at, n, Width::Narrow),
        Width::Wide => pairs_by(file, at, n, Width::Wide),
    }
}

// Of at most n pointers from a place on, those that rise and stay below the file's length.
pub fn rising_pointers(file: &[u8], at: usize, n: u32, width: Width) -> Rising
    ensures { result ≡ rising (bytes_of width) file.now at n 0 }
{
    let end = file.len();
    let size = width.bytes();
    let most = pointers_in(file, at, n, width);
    let pairs = rising_pairs(file, at, most, width);
    let mut last = pairs.last;
    for count in pairs.count..most {
        let next = number_at(file, at + size * (count as usize), width);
        // By `|`, as in a pair.
        if (next <= last) | (end <= next) {
            return Rising { count, last };
        }
        last = next;
    }
    Rising { count: most, last }
}
