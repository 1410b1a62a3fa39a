// Lists the XCF files that its arguments name, each behind a line with its name.
#![tactic(auto)]

ghost use Rattle.std.specs.Prelude.{◌≤◌, length, IfSome};

use std::env::Env;
use std::{fs, io};
use xcf_input::read_full;
use xcf_listing::print::print_listing;
use xcf_listing::{INPUT_SIZE, TEXT_SIZE};
use xcf_numbers::limit::TABLE_SIZE;

// The most cases that are listed.
const CASES: usize = 64;

// Reads the case to the input's start; how many bytes it has there, unless it cannot be opened.
fn read_case(rt: &HostRuntime, name: &[u8], input: &mut [u8]) -> Option<usize>
    ensures { IfSome result (λ n. n ≤ length input.new) }
{
    let path = str::from_utf8(name).ok()?;
    let mut file = fs::open(rt, path).ok()?;
    Some(read_full(&mut file, input))
}

fn print_case(
    rt: &HostRuntime,
    name: &[u8],
    input: &mut [u8],
    table: &mut [u32],
    text: &mut [u8],
) -> io::Result<()> {
    rt.write_all(name)?;
    rt.write_all(b"\n")?;
    match read_case(rt, name, input) {
        Some(n) => print_listing(rt, &input[..n], table, text),
        None => rt.write_all(b"not opened\n"),
    }
}

// The cases up to the first argument that is missing, empty or too long.
fn main(rt: HostRuntime) -> io::Result<()> {
    let mut name = [0u8; 256];
    let mut input = [0u8; INPUT_SIZE];
    let mut table = [0u32; TABLE_SIZE];
    let mut text = [0u8; TEXT_SIZE];
    for i in 1..=CASES {
        let n = rt.arg(i, &mut name).unwrap_or(0);
        if n == 0 {
            return Ok(());
        }
        print_case(&rt, &name[..n], &mut input, &mut table, &mut text)?;
    }
    Ok(())
}
