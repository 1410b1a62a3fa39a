// Lists the XCF file on standard input.
#![tactic(auto)]

use std::io;
use xcf_input::read_full;
use xcf_listing::print::print_listing;
use xcf_listing::{INPUT_SIZE, TEXT_SIZE};
use xcf_numbers::limit::TABLE_SIZE;

fn main(rt: HostRuntime) -> io::Result<()> {
    let mut input = [0u8; INPUT_SIZE];
    let n = read_full(&mut rt.reader(), &mut input);
    let mut table = [0u32; TABLE_SIZE];
    let mut text = [0u8; TEXT_SIZE];
    print_listing(&rt, &input[..n], &mut table, &mut text)
}
