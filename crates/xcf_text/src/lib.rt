// Words and numbers put into a text, an output that is written forward.
#![tactic(auto)]

ghost use Rattle.std.specs.Prelude.{◌≡◌, ◌+◌, ◌*◌, ◌≤◌, length};
ghost use mathlib.Core.List.{◌++◌, flat_map};
ghost use Rattle.xcf_text.specs.Stores.{StoresWithin};
ghost use Rattle.xcf_text.specs.Text.{newline, decimal, spaced, labelled, decimal_size, spaced_size};

use itoa::Buffer;
use xcf_store::output::Output;

pub fn put_decimal(text: &mut Output<'_>, n: u64)
    requires { text.old.at + decimal_size ≤ length text.old.bytes.now }
    ensures stores { StoresWithin text.old (decimal n) decimal_size text.new }
    ensures same { text.new.bytes.ghost_name ≡ text.old.bytes.ghost_name }
{
    let mut digits = Buffer::new();
    text.bytes(digits.format(n).as_bytes());
}

// A space and a number.
pub fn put_spaced(text: &mut Output<'_>, n: u64)
    requires { text.old.at + spaced_size ≤ length text.old.bytes.now }
    ensures stores { StoresWithin text.old (spaced n) spaced_size text.new }
    ensures same { text.new.bytes.ghost_name ≡ text.old.bytes.ghost_name }
{
    text.bytes(b" ");
    put_decimal(text, n);
}

// A label, and a number behind a space.
pub fn put_labelled(text: &mut Output<'_>, label: &[u8], n: u64)
    requires { text.old.at + length label.now + spaced_size ≤ length text.old.bytes.now }
    ensures stores { StoresWithin text.old (labelled label.now n) (length label.now + spaced_size) text.new }
    ensures same { text.new.bytes.ghost_name ≡ text.old.bytes.ghost_name }
{
    text.bytes(label);
    put_spaced(text, n);
}

// The same at a line's end.
pub fn put_last(text: &mut Output<'_>, label: &[u8], n: u64)
    requires { text.old.at + length label.now + (spaced_size + 1) ≤ length text.old.bytes.now }
    ensures stores { StoresWithin text.old (labelled label.now n ++ newline) (length label.now + (spaced_size + 1)) text.new }
    ensures same { text.new.bytes.ghost_name ≡ text.old.bytes.ghost_name }
{
    put_labelled(text, label, n);
    text.bytes(b"\n");
}

// Numbers, each behind a space.
pub fn put_all(text: &mut Output<'_>, numbers: &[u32])
    requires { text.old.at + spaced_size * length numbers.now ≤ length text.old.bytes.now }
    ensures stores { StoresWithin text.old (flat_map spaced numbers.now) (spaced_size * length numbers.now) text.new }
    ensures same { text.new.bytes.ghost_name ≡ text.old.bytes.ghost_name }
{
    for n in numbers {
        put_spaced(text, u64::from(*n));
    }
}
