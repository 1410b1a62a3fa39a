// Runs the tile decoder and encoder on the records of standard input, and prints a line for each.
#![tactic(auto)]

mod record;

use record::{Kind, Record, Records};
use std::io;
use xcf_encode::EncodeAnswer;
use xcf_input::read_full;

// The most bytes of input that are read.
const INPUT_SIZE: usize = 131072;

// Room for every buffer that a record lends.
const BUFFER_SIZE: usize = 20480;

// The most records that are run.
const RECORDS: usize = 4096;

// s = (s * 31 + b) % 65521 over the bytes.
fn sum(lent: &[u8]) -> u64 {
    lent.iter()
        .fold(0, |s: u64, b| (s % 65521 * 31 + u64::from(*b)) % 65521)
}

fn decode(rt: &HostRuntime, r: Record, lent: &mut [u8]) -> io::Result<()> {
    let a = xcf_tile::decode_tile(r.source, r.width, r.height, r.depth, r.compression, lent);
    println!(rt;
        "tile {} {} {} {} {} {}",
        a.number,
        a.place,
        a.mark,
        a.consumed,
        a.operations,
        sum(lent)
    )
}

fn print_encoded(rt: &HostRuntime, name: &str, a: EncodeAnswer, lent: &[u8]) -> io::Result<()> {
    println!(rt;
        "{name} {} {} {} {}",
        a.number,
        a.place,
        a.length,
        sum(lent)
    )
}

fn encode(rt: &HostRuntime, r: Record, lent: &mut [u8]) -> io::Result<()> {
    let a = xcf_encode::encode_tile(r.source, r.width, r.height, r.depth, lent);
    print_encoded(rt, "write", a, lent)
}

fn encode_stream(rt: &HostRuntime, stream: &[u8], lent: &mut [u8]) -> io::Result<()> {
    let a = xcf_encode::encode_stream(stream, lent);
    print_encoded(rt, "stream", a, lent)
}

// One call on a buffer of 0xAA bytes.
fn run(rt: &HostRuntime, r: Record, lent: &mut [u8]) -> io::Result<()> {
    lent.fill(0xaa);
    match r.kind {
        Kind::Decode => decode(rt, r, lent),
        Kind::Encode => encode(rt, r, lent),
        Kind::EncodeStream => encode_stream(rt, r.source, lent),
    }
}

// A record that asks for more than the buffer is passed over.
fn run_all(rt: &HostRuntime, input: &[u8], buffer: &mut [u8]) -> io::Result<()> {
    for r in Records::of(input).take(RECORDS) {
        if let Some(lent) = buffer.get_mut(..r.lent) {
            run(rt, r, lent)?;
        }
    }
    Ok(())
}

fn main(rt: HostRuntime) -> io::Result<()> {
    let mut input = [0u8; INPUT_SIZE];
    let n = read_full(&mut rt.reader(), &mut input);
    let mut buffer = [0u8; BUFFER_SIZE];
    run_all(&rt, &input[..n], &mut buffer)
}
